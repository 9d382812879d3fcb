//! The default bodies, which the trait and `utils` share: a body of a trait cannot pass its receiver to a function that
//! is bounded by that trait.

macro_rules! array_type {
    ($reencoder:ident, $array_ty:ident) => {
        Ok(w::ArrayType($reencoder.field_type($array_ty.0)?))
    };
}

macro_rules! cont_type {
    ($reencoder:ident, $cont_ty:ident) => {
        Ok(w::ContType($reencoder.type_index_unpacked($cont_ty.0)?))
    };
}

macro_rules! field_type {
    ($reencoder:ident, $field_ty:ident) => {
        Ok(w::FieldType {
            element_type: $reencoder.storage_type($field_ty.element_type)?,
            mutable: $field_ty.mutable,
        })
    };
}

macro_rules! heap_type {
    ($reencoder:ident, $heap_type:ident) => {
        match $heap_type {
            r::HeapType::Abstract { shared, ty } => Ok(w::HeapType::Abstract {
                shared,
                ty: $reencoder.abstract_heap_type(ty)?,
            }),
            r::HeapType::Concrete(index) => {
                Ok(w::HeapType::Concrete($reencoder.type_index_unpacked(index)?))
            }
            r::HeapType::Exact(index) => {
                Ok(w::HeapType::Exact($reencoder.type_index_unpacked(index)?))
            }
        }
    };
}

macro_rules! ref_type {
    ($reencoder:ident, $ref_type:ident) => {
        Ok(w::RefType {
            nullable: $ref_type.nullable,
            heap_type: $reencoder.heap_type($ref_type.heap_type)?,
        })
    };
}

macro_rules! storage_type {
    ($reencoder:ident, $storage_ty:ident) => {
        match $storage_ty {
            r::StorageType::I8 => Ok(w::StorageType::I8),
            r::StorageType::I16 => Ok(w::StorageType::I16),
            r::StorageType::Val(ty) => Ok(w::StorageType::Val($reencoder.val_type(ty)?)),
        }
    };
}

macro_rules! val_type {
    ($reencoder:ident, $val_ty:ident) => {
        match $val_ty {
            r::ValType::I32 => Ok(w::ValType::I32),
            r::ValType::I64 => Ok(w::ValType::I64),
            r::ValType::F32 => Ok(w::ValType::F32),
            r::ValType::F64 => Ok(w::ValType::F64),
            r::ValType::V128 => Ok(w::ValType::V128),
            r::ValType::Ref(ref_type) => Ok(w::ValType::Ref($reencoder.ref_type(ref_type)?)),
        }
    };
}

macro_rules! composite_type {
    ($reencoder:ident, $alloc:ident, $composite_ty:ident) => {
        {
            let r::CompositeType {
                inner,
                shared,
                descriptor_idx,
                describes_idx,
            } = $composite_ty;
            let inner = match inner {
                r::CompositeInnerType::Func(ty) => {
                    w::CompositeInnerType::Func($reencoder.func_type($alloc, ty)?)
                }
                r::CompositeInnerType::Array(ty) => {
                    w::CompositeInnerType::Array($reencoder.array_type(ty)?)
                }
                r::CompositeInnerType::Struct(ty) => {
                    w::CompositeInnerType::Struct($reencoder.struct_type($alloc, ty)?)
                }
                r::CompositeInnerType::Cont(ty) => {
                    w::CompositeInnerType::Cont($reencoder.cont_type(ty)?)
                }
            };
            let descriptor = match descriptor_idx {
                Some(index) => Some($reencoder.type_index_unpacked(index)?),
                None => None,
            };
            let describes = match describes_idx {
                Some(index) => Some($reencoder.type_index_unpacked(index)?),
                None => None,
            };
            Ok(w::CompositeType {
                inner,
                shared,
                descriptor,
                describes,
            })
        }
    };
}

// A list of value types, each by the method `val_type`.
macro_rules! each_val_type {
    ($reencoder:ident, $alloc:ident, $val_tys:expr) => {
        {
            let mut mapped = List::with_capacity($alloc, $val_tys.len())?;
            for ty in $val_tys.as_slice() {
                let ty = $reencoder.val_type(*ty)?;
                mapped.push(ty)?;
            }
            mapped
        }
    };
}

macro_rules! func_type {
    ($reencoder:ident, $alloc:ident, $func_ty:ident) => {
        {
            let params = default_bodies::each_val_type!($reencoder, $alloc, $func_ty.params);
            let results = default_bodies::each_val_type!($reencoder, $alloc, $func_ty.results);
            Ok(w::FuncType { params, results })
        }
    };
}

macro_rules! struct_type {
    ($reencoder:ident, $alloc:ident, $struct_ty:ident) => {
        {
            let mut fields = List::with_capacity($alloc, $struct_ty.fields.len())?;
            for field in $struct_ty.fields.as_slice() {
                let field = $reencoder.field_type(*field)?;
                fields.push(field)?;
            }
            Ok(w::StructType { fields })
        }
    };
}

macro_rules! sub_type {
    ($reencoder:ident, $alloc:ident, $sub_ty:ident) => {
        {
            let mut supertype_idxs = List::with_capacity($alloc, $sub_ty.supertype_idxs.len())?;
            for index in $sub_ty.supertype_idxs.as_slice() {
                let index = $reencoder.type_index_unpacked(*index)?;
                supertype_idxs.push(index)?;
            }
            let composite_type = $reencoder.composite_type($alloc, $sub_ty.composite_type)?;
            Ok(w::SubType {
                is_final: $sub_ty.is_final,
                supertype_idxs,
                composite_type,
            })
        }
    };
}

macro_rules! val_types {
    ($reencoder:ident, $alloc:ident, $val_tys:ident) => {
        Ok(default_bodies::each_val_type!($reencoder, $alloc, $val_tys))
    };
}

macro_rules! table_type {
    ($reencoder:ident, $table_ty:ident) => {
        Ok(w::TableType {
            element_type: $reencoder.ref_type($table_ty.element_type)?,
            table64: $table_ty.table64,
            minimum: $table_ty.initial,
            maximum: $table_ty.maximum,
            shared: $table_ty.shared,
        })
    };
}

macro_rules! global_type {
    ($reencoder:ident, $global_ty:ident) => {
        Ok(w::GlobalType {
            val_type: $reencoder.val_type($global_ty.content_type)?,
            mutable: $global_ty.mutable,
            shared: $global_ty.shared,
        })
    };
}

macro_rules! tag_type {
    ($reencoder:ident, $tag_ty:ident) => {
        Ok(w::TagType {
            kind: $reencoder.tag_kind($tag_ty.kind)?,
            func_type_idx: $reencoder.type_index($tag_ty.func_type_idx)?,
        })
    };
}

macro_rules! entity_type {
    ($reencoder:ident, $type_ref:ident) => {
        match $type_ref {
            r::TypeRef::Func(index) => {
                Ok(w::EntityType::Function($reencoder.type_index(index)?))
            }
            r::TypeRef::FuncExact(index) => {
                Ok(w::EntityType::FunctionExact($reencoder.type_index(index)?))
            }
            r::TypeRef::Table(ty) => Ok(w::EntityType::Table($reencoder.table_type(ty)?)),
            r::TypeRef::Memory(ty) => Ok(w::EntityType::Memory($reencoder.memory_type(ty)?)),
            r::TypeRef::Global(ty) => Ok(w::EntityType::Global($reencoder.global_type(ty)?)),
            r::TypeRef::Tag(ty) => Ok(w::EntityType::Tag($reencoder.tag_type(ty)?)),
        }
    };
}

macro_rules! block_type {
    ($reencoder:ident, $arg:ident) => {
        match $arg {
            r::BlockType::Empty => Ok(w::BlockType::Empty),
            r::BlockType::Type_(ty) => Ok(w::BlockType::Result($reencoder.val_type(ty)?)),
            r::BlockType::FuncType(index) => {
                Ok(w::BlockType::FunctionType($reencoder.type_index(index)?))
            }
        }
    };
}

macro_rules! immediate {
    ($reencoder:ident, $alloc:ident, $imm:ident) => {
        match $imm {
            r::Imm::Block(ty) => Ok(w::Imm::Block($reencoder.block_type(ty)?)),
            r::Imm::Label(label) => Ok(w::Imm::Label(label)),
            r::Imm::Labels { targets, default } => Ok(w::Imm::Labels { targets, default }),
            r::Imm::Index(space, index) => Ok(w::Imm::Index(
                space,
                indices::core_index($reencoder, space, index)?,
            )),
            r::Imm::Local(local) => Ok(w::Imm::Local(local)),
            r::Imm::Field(field) => Ok(w::Imm::Field(field)),
            r::Imm::Size(size) => Ok(w::Imm::Size(size)),
            r::Imm::Types(types) => Ok(w::Imm::Types($reencoder.val_types($alloc, types)?)),
            r::Imm::Mem(arg) => Ok(w::Imm::Mem($reencoder.mem_arg(arg)?)),
            r::Imm::S32(number) => Ok(w::Imm::S32(number)),
            r::Imm::S64(number) => Ok(w::Imm::S64(number)),
            r::Imm::Four(arg) => Ok(w::Imm::Four($reencoder.ieee32_arg(arg)?)),
            r::Imm::Eight(arg) => Ok(w::Imm::Eight($reencoder.ieee64_arg(arg)?)),
            r::Imm::Sixteen(bytes) => Ok(w::Imm::Sixteen(bytes)),
            r::Imm::Lanes(lanes) => Ok(w::Imm::Lanes(lanes)),
            r::Imm::Lane(lane) => Ok(w::Imm::Lane(lane)),
            r::Imm::Heap(ty) => Ok(w::Imm::Heap($reencoder.heap_type(ty)?)),
            r::Imm::Catches(catches) => {
                let mut mapped = List::with_capacity($alloc, catches.len())?;
                for arg in catches.as_slice() {
                    let arg = $reencoder.catch(*arg)?;
                    mapped.push(arg)?;
                }
                Ok(w::Imm::Catches(mapped))
            }
            r::Imm::Cast { label, from, to } => {
                let from = $reencoder.ref_type(from)?;
                let to = $reencoder.ref_type(to)?;
                Ok(w::Imm::Cast { label, from, to })
            }
            r::Imm::Handlers(handlers) => {
                let mut mapped = List::with_capacity($alloc, handlers.len())?;
                for on in handlers.as_slice() {
                    let on = $reencoder.handle(*on)?;
                    mapped.push(on)?;
                }
                Ok(w::Imm::Handlers(mapped))
            }
            r::Imm::Zero => Ok(w::Imm::Zero),
        }
    };
}

macro_rules! instruction {
    ($reencoder:ident, $alloc:ident, $arg:ident) => {
        {
            let opcode = $arg.opcode();
            let imms = $arg.into_imms();
            let mut mapped = List::with_capacity($alloc, imms.len())?;
            for imm in imms.into_vec() {
                let imm = $reencoder.immediate($alloc, imm)?;
                mapped.push(imm)?;
            }
            Ok(w::Instruction::of_kinds(opcode, mapped))
        }
    };
}

macro_rules! parse_instruction {
    ($reencoder:ident, $alloc:ident, $reader:ident) => {
        {
            let operator = $reader.read($alloc)?;
            $reencoder.instruction($alloc, operator)
        }
    };
}

macro_rules! const_expr {
    ($reencoder:ident, $alloc:ident, $const_expr:ident) => {
        {
            let mut mapped = w::ConstExpr::new($alloc);
            let mut reader = $const_expr.get_operators_reader();
            'operators: while !reader.is_end_then_eof() {
                let instruction = $reencoder.parse_instruction($alloc, &mut reader)?;
                if instruction.opcode() == END || reader.eof() {
                    return Err(Error::InvalidConstExpr);
                }
                mapped.instruction(&instruction)?;
            }
            Ok(mapped)
        }
    };
}

pub(crate) use array_type;
pub(crate) use block_type;
pub(crate) use composite_type;
pub(crate) use const_expr;
pub(crate) use cont_type;
pub(crate) use each_val_type;
pub(crate) use entity_type;
pub(crate) use field_type;
pub(crate) use func_type;
pub(crate) use global_type;
pub(crate) use heap_type;
pub(crate) use immediate;
pub(crate) use instruction;
pub(crate) use parse_instruction;
pub(crate) use ref_type;
pub(crate) use storage_type;
pub(crate) use struct_type;
pub(crate) use sub_type;
pub(crate) use table_type;
pub(crate) use tag_type;
pub(crate) use val_type;
pub(crate) use val_types;
