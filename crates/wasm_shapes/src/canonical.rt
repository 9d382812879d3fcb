//! The canonical functions by their bytes, as `specs/Component.antt` has them.
ghost use Rattle.std.specs.Prelude.{◌≡◌};
ghost use Rattle.wasm_shapes.specs.Component.{canonical_at, form_of};

/// What stands behind the byte of a canonical function (Component Model, Binary Format: `canon`).
#[derive(Clone, Copy, Debug, PartialEq)]
pub enum CanonicalForm {
    Nothing,
    Lift,
    Lower,
    Type_,
    TypeAndOptions,
    TypeAndAsync,
    Async,
    ResultAndOptions,
    Slot,
    Options,
    CoreType,
    CoreTypeAndTable,
}

/// What stands behind a byte, where a canonical function begins with it, and none exactly where none does.
pub fn canonical_form(byte: u8) -> Option<CanonicalForm>
    ensures { result ≡ form_of (canonical_at byte) }
{
    match byte {
        0x00 => Some(CanonicalForm::Lift),
        0x01 => Some(CanonicalForm::Lower),
        0x02 => Some(CanonicalForm::Type_),
        0x03 => Some(CanonicalForm::Type_),
        0x04 => Some(CanonicalForm::Type_),
        0x05 => Some(CanonicalForm::Nothing),
        0x06 => Some(CanonicalForm::Async),
        0x09 => Some(CanonicalForm::ResultAndOptions),
        0x0a => Some(CanonicalForm::Slot),
        0x0b => Some(CanonicalForm::Slot),
        0x0d => Some(CanonicalForm::Nothing),
        0x0e => Some(CanonicalForm::Type_),
        0x0f => Some(CanonicalForm::TypeAndOptions),
        0x10 => Some(CanonicalForm::TypeAndOptions),
        0x11 => Some(CanonicalForm::TypeAndAsync),
        0x12 => Some(CanonicalForm::TypeAndAsync),
        0x13 => Some(CanonicalForm::Type_),
        0x14 => Some(CanonicalForm::Type_),
        0x15 => Some(CanonicalForm::Type_),
        0x16 => Some(CanonicalForm::TypeAndOptions),
        0x17 => Some(CanonicalForm::TypeAndOptions),
        0x18 => Some(CanonicalForm::TypeAndAsync),
        0x19 => Some(CanonicalForm::TypeAndAsync),
        0x1a => Some(CanonicalForm::Type_),
        0x1b => Some(CanonicalForm::Type_),
        0x1c => Some(CanonicalForm::Options),
        0x1d => Some(CanonicalForm::Options),
        0x1e => Some(CanonicalForm::Nothing),
        0x1f => Some(CanonicalForm::Nothing),
        0x22 => Some(CanonicalForm::Nothing),
        0x23 => Some(CanonicalForm::Nothing),
        0x24 => Some(CanonicalForm::Nothing),
        0x25 => Some(CanonicalForm::Nothing),
        0x40 => Some(CanonicalForm::CoreType),
        0x41 => Some(CanonicalForm::CoreTypeAndTable),
        0x42 => Some(CanonicalForm::Nothing),
        _ => None,
    }
}
