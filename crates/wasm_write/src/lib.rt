//! Writers of a core module. What is added to them is held in its normal spelling.
#![tactic(auto)]

mod bodies;
mod code;
mod elements;
mod expressions;
mod externals;
mod fault;
mod fields;
mod frames;
mod framing;
mod groups;
mod immediates;
mod instructions;
mod laws;
mod module;
mod name_section;
mod names;
mod roomed;
mod row_section;
mod rows;
mod section;
mod sections;
mod single_sections;
mod subsections;
mod types;
mod value_types;
mod vectors;

pub use bodies::Function;
pub use code::CodeSection;
pub use expressions::ConstExpr;
pub use externals::write_entity_type;
pub use fault::WriteFault;
pub use fields::{write_item, write_name};
pub use groups::write_group;
pub use instructions::Instruction;
pub use laws::normal_is_shortest;
pub use module::Module;
pub use name_section::NameSection;
pub use names::{IndirectNameMap, NameMap};
pub use row_section::{AppendRow, RowOf, RowSection};
pub use section::Section;
pub use sections::{
    DataSection, ElementSection, ExportSection, FunctionSection, GlobalSection, ImportSection,
    MemorySection, TableSection, TagSection, TypeSection,
};
pub use single_sections::{DataCountSection, RawSection, StartSection};
pub use subsections::{SubsectionKind, Subsections};
pub use types::{
    AbstractHeapType, ArrayType, BlockType, Catch, CompositeInnerType, CompositeType, ContType,
    CustomSection, Elements, EntityType, Export, ExportKind, FieldType, FuncType, GlobalType,
    Handle, HeapType, Ieee32, Ieee64, Imm, Import, ImportCompact, Imports, MemArg, MemoryType,
    Ordering, RecGroup, RefType, StorageType, StructType, SubType, TableType, TagKind, TagType,
    ValType,
};
pub use value_types::{write_byte, write_field_type, write_val_type};
pub use vectors::{ItemOf, write_rows, write_vec};
