//! Readers of a core module. They borrow the bytes, and copy none of them.
#![tactic(auto)]

mod behind_groups;
mod code;
mod compact;
mod data_segments;
mod elements;
mod expressions;
mod externals;
mod fields;
mod groups;
mod immediates;
mod laws;
mod name_section;
mod names;
mod operators;
mod payloads;
mod rows;
mod section_reader;
mod sections;
mod types;
mod value_types;
mod vector_items;

pub use behind_groups::behind_group;
pub use compact::{CompactItems, CompactNames, VecItems};
pub use expressions::ConstExpr;
pub use externals::{front_type_ref, read_type_ref};
pub use fields::{front_export, front_name, read_item, read_name};
pub use groups::{front_group, read_group};
pub use laws::{bodies_stand_in_frames, subsections_stand_in_frames};
pub use name_section::{NameSectionReader, Subsection, SubsectionReader, whole_name};
pub use names::{IndirectNameMap, NameMap};
pub use operators::{Operator, OperatorsReader};
pub use payloads::{Payloads, front_frame, front_sized};
pub use rows::Rows;
pub use section_reader::{ReadRow, SectionReader};
pub use sections::{
    BodyFrames, CodeSectionReader, DataSectionReader, ElementSectionReader, ExportSectionReader,
    FunctionSectionReader, GlobalSectionReader, ImportSectionReader, MemorySectionReader,
    TableSectionReader, TagSectionReader, TypeSectionReader,
};
pub use types::{
    AbstractHeapType, ArrayType, BlockType, Catch, CompositeInnerType, CompositeType, ContType,
    CustomSection, Data, DataKind, Element, ElementItems, ElementKind, Export, ExternalKind,
    FieldType, FuncType, FunctionBody, Global, GlobalType, Handle, HeapType, Ieee32, Ieee64, Imm,
    Import, ImportCompact, Imports, IndirectNaming, MemArg, MemoryType, Name, Naming, Ordering,
    Payload, RecGroup, RefType, StorageType, StructType, SubType, Table, TableInit, TableType,
    TagKind, TagType, TypeRef, UnpackedIndex, ValType,
};
pub use value_types::{front_field_type, front_val_type, read_val_type};
pub use vector_items::{Entry, SmallEntry, behind_rows, front_rows};
