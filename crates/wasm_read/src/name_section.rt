//! Name sections (WebAssembly Core Specification 3.0, section 7.4.1).
ghost use Rattle.std.specs.Prelude.{◌≡◌, ℕ, List, [], IfOk, IfErr, IfSome, IfNone, length};
ghost use Rattle.wasm_shapes.specs.Module.{name_subsection};
ghost use Rattle.wasm_shapes.specs.Place.{BeginsNone};
ghost use Rattle.wasm_shapes.specs.Shape.{Shape};
ghost use Rattle.wasm_shapes.specs.Spells.{Spells};
ghost use Rattle.wasm_shapes.specs.Tree.{Tree};
ghost use Rattle.wasm_read.specs.Names.{names_place};
ghost use Rattle.wasm_read.specs.Subsections.{HoldsName, NoSubsection, SubsectionBegins, SubsectionMissing, SubsectionRead};
ghost use Rattle.wasm_read.specs.Reading.{ReadsNone};

use crate::fields::front_name;
use crate::names::{IndirectNameMap, NameMap};
use crate::payloads::front_sized;
use crate::types::Name;
use std::alloc::Global;
use std::marker::{Model, PhantomData};
use wasm_leb::{Fault, ReadError, front_byte};

/// What a subsection of names can be, by its id and its body.
pub trait Subsection<'a> {
    // The shape of a subsection.
    ghost shape: { Shape };

    // The id and the body that hold it.
    ghost holds: { ℕ → List ℕ → Self → Type 0 };

    /// What the body of a subsection of an id is; none exactly where the id is 0 and the body is no name.
    fn of_body(id: u8, body: &'a [u8]) -> Option<Self>
        ensures some { IfSome result (holds id body.now) }
        ensures none { IfNone result
            ((id ≡ 0) × ((t : Tree) → Spells Shape.name body.now t → ⊥)) };

    /// Does nothing: no subsection begins where no frame does, or one of the id 0 whose body is no name.
    fn none_begins(bytes: &[u8])
        requires { NoSubsection bytes.now }
        ensures { BeginsNone shape bytes.now };
}

/// A reader of subsections, which fill their bytes.
#[derive(Drop)]
pub struct SubsectionReader<'a, N> {
    rest: &'a [u8],
    len: usize,
    of: PhantomData<N>,
}

impl<'a, N> Model for SubsectionReader<'a, N> {
    ghost use Rattle.wasm_read.specs.Names.{NamesStanding};

    ghost Value = { NamesStanding };

    ghost view = { λ reader. record { rest = reader.rest.now; len = reader.len } };
}

/// A reader of the subsections of a name section, which fill its body.
pub type NameSectionReader<'a> = SubsectionReader<'a, Name<'a>>;

/// The name that fills some bytes.
pub fn whole_name(bytes: &[u8]) -> Option<&str>
    ensures some { IfSome result (λ name. Spells Shape.name bytes.now (Tree.name name.now)) }
    ensures none { IfNone result ((t : Tree) → Spells Shape.name bytes.now t → ⊥) }
{
    match front_name(bytes) {
        Some((name, [])) => Some(name),
        Some(_) => None,
        None => None,
    }
}

impl<'a> Subsection<'a> for Name<'a> {
    ghost shape = { name_subsection };

    ghost holds = { HoldsName };

    fn of_body(id: u8, body: &'a [u8]) -> Option<Name<'a>> {
        match id {
            0 => match whole_name(body) {
                Some(name) => Some(Name::Module { name }),
                None => None,
            },
            1 => Some(Name::Function(NameMap::new(body))),
            2 => Some(Name::Local(IndirectNameMap::new(body))),
            3 => Some(Name::Label(IndirectNameMap::new(body))),
            4 => Some(Name::Type_(NameMap::new(body))),
            5 => Some(Name::Table(NameMap::new(body))),
            6 => Some(Name::Memory(NameMap::new(body))),
            7 => Some(Name::Global(NameMap::new(body))),
            8 => Some(Name::Element(NameMap::new(body))),
            9 => Some(Name::Data(NameMap::new(body))),
            10 => Some(Name::Field(IndirectNameMap::new(body))),
            11 => Some(Name::Tag(NameMap::new(body))),
            _ => Some(Name::Unknown { id, contents: body }),
        }
    }

    #[tactic(auto, using(crate::proofs::Subsections::none_begins))]
    fn none_begins(bytes: &[u8])
        requires { NoSubsection bytes.now }
        ensures { BeginsNone name_subsection bytes.now }
    {
        let _ = bytes;
    }
}

/// The subsection at the front of some bytes, and the bytes behind it.
fn front_subsection<'a, N: Subsection<'a>>(bytes: &'a [u8]) -> Option<(N, &'a [u8])>
    ensures some { IfSome result (λ r. SubsectionBegins N.holds bytes.now r.0 r.1.now) }
    ensures none { IfNone result (NoSubsection bytes.now) }
{
    let Some((id, rest)) = front_byte(bytes) else {
        return None;
    };
    let Some((body, rest)) = front_sized(rest) else {
        return None;
    };
    match N::of_body(id, body) {
        Some(name) => Some((name, rest)),
        None => None,
    }
}

impl<'a, N> SubsectionReader<'a, N> {
    /// A reader of the contents behind the section's name. They have no count, so nothing is refused.
    pub fn new(body: &'a [u8]) -> Result<Self, Fault>
        ensures ok { IfOk result (λ reader.
            reader ≡ record { rest = body.now; len = length body.now }) }
        ensures err { IfErr result (λ _. ⊥) }
    {
        Ok(SubsectionReader {
            rest: body,
            len: body.len(),
            of: PhantomData,
        })
    }

    /// The place in the body where it stands.
    pub fn place(&self) -> usize
        ensures { result ≡ names_place self.now }
    {
        self.len.saturating_sub(self.rest.len())
    }
}

impl<'a, N: Subsection<'a>> SubsectionReader<'a, N> {
    /// The next subsection, or none where the body is filled. Of a map nothing is read. No memory is taken.
    ///
    /// The error is `Read` exactly where no subsection's frame begins, or one of the id 0 whose body is no name. It holds that
    /// place, and leaves the reader where it stood.
    pub fn next_row(&mut self, alloc: Global) -> Result<Option<N>, Fault>
        ensures row { IfOk result (λ o. IfSome o (λ name.
            SubsectionRead N.holds self.old name self.new)) }
        ensures ended { IfOk result (λ o. IfNone o
            ((self.old.rest ≡ []) × (self.new ≡ self.old))) }
        ensures err { IfErr result (λ e.
            ReadsNone e (names_place self.old) (SubsectionMissing N.shape self.old)) }
        ensures stays { IfErr result (λ _. self.new ≡ self.old) }
    {
        if self.rest.is_empty() {
            return Ok(None);
        }
        match front_subsection(self.rest) {
            Some((name, rest)) => {
                self.rest = rest;
                Ok(Some(name))
            }
            None => {
                N::none_begins(self.rest);
                Err(Fault::Read(ReadError { at: self.place() }))
            }
        }
    }
}
