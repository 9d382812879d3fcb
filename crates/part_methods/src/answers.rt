//! What an overridden method answers, whatever it was given.
use crate::noter::{Made, UNASKED};
use std::alloc::Global;
use wasm_leb::List;
use wasm_shapes::END;
use wasm_write as w;

pub const HEAP: w::HeapType = w::HeapType::Concrete(0);

pub const REFERENCE: w::RefType = w::RefType {
    nullable: true,
    heap_type: HEAP,
};

pub const FIELD: w::FieldType = w::FieldType {
    element_type: w::StorageType::I8,
    mutable: false,
};

pub const TABLE: w::TableType = w::TableType {
    element_type: REFERENCE,
    table64: false,
    minimum: 0,
    maximum: None,
    shared: false,
};

pub const MEMORY: w::MemoryType = w::MemoryType {
    memory64: false,
    shared: false,
    minimum: 0,
    maximum: None,
    page_size_log2: None,
};

pub const GLOBAL: w::GlobalType = w::GlobalType {
    val_type: w::ValType::I32,
    mutable: false,
    shared: false,
};

pub const TAG: w::TagType = w::TagType {
    kind: w::TagKind::Exception,
    func_type_idx: 0,
};

pub const ACCESS: w::MemArg = w::MemArg {
    align: 0,
    memory: 0,
    offset: 0,
};

/// A function without parameters and results.
pub fn function(alloc: Global) -> w::FuncType {
    w::FuncType {
        params: List::new(alloc),
        results: List::new(alloc),
    }
}

/// A structure without fields.
pub fn structure(alloc: Global) -> w::StructType {
    w::StructType {
        fields: List::new(alloc),
    }
}

/// A continuation.
pub fn composite() -> w::CompositeType {
    w::CompositeType {
        inner: w::CompositeInnerType::Cont(w::ContType(0)),
        shared: false,
        descriptor: None,
        describes: None,
    }
}

/// A continuation without supertypes.
pub fn sub_type(alloc: Global) -> w::SubType {
    w::SubType {
        is_final: true,
        supertype_idxs: List::new(alloc),
        composite_type: composite(),
    }
}

/// A group of no types.
pub fn group(alloc: Global) -> w::RecGroup {
    w::RecGroup {
        explicit: true,
        types: List::new(alloc),
    }
}

/// No functions.
pub fn elements(alloc: Global) -> w::Elements {
    w::Elements::Functions(List::new(alloc))
}

/// The operator `end`.
pub fn end<'a>(alloc: Global) -> Made<w::Instruction<'a>> {
    w::Instruction::new(END, List::new(alloc)).ok_or(UNASKED)
}

/// A body without locals and operators.
pub fn body(alloc: Global) -> Made<w::Function> {
    Ok(w::Function::new(alloc, &List::new(alloc))?)
}
