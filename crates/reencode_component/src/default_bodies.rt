//! The default bodies, which the trait and `component_utils` share: a body of a trait cannot pass its receiver to a function
//! that is bounded by that trait.

macro_rules! component_val_type {
    ($reencoder:ident, $ty:ident) => {
        match $ty {
            r::ComponentValType::Primitive(ty) => {
                w::ComponentValType::Primitive($reencoder.component_primitive_val_type(ty))
            }
            r::ComponentValType::Type_(index) => {
                w::ComponentValType::Type_($reencoder.component_type_index(index))
            }
        }
    };
}

macro_rules! component_type_ref {
    ($reencoder:ident, $ty:ident) => {
        match $ty {
            r::ComponentTypeRef::Module(index) => {
                Ok(w::ComponentTypeRef::Module($reencoder.type_index(index)?))
            }
            r::ComponentTypeRef::Func(index) => {
                Ok(w::ComponentTypeRef::Func($reencoder.component_type_index(index)))
            }
            r::ComponentTypeRef::Value(ty) => {
                Ok(w::ComponentTypeRef::Value($reencoder.component_val_type(ty)))
            }
            r::ComponentTypeRef::Type_(bounds) => {
                Ok(w::ComponentTypeRef::Type_($reencoder.type_bounds(bounds)))
            }
            r::ComponentTypeRef::Instance(index) => {
                Ok(w::ComponentTypeRef::Instance($reencoder.component_type_index(index)))
            }
            r::ComponentTypeRef::Component(index) => {
                Ok(w::ComponentTypeRef::Component($reencoder.component_type_index(index)))
            }
        }
    };
}

macro_rules! component_alias {
    ($reencoder:ident, $alias:ident) => {
        match $alias {
            r::ComponentAlias::InstanceExport {
                kind,
                instance_index,
                name,
            } => Ok(w::Alias::InstanceExport {
                kind: $reencoder.component_export_kind(kind),
                instance_index: $reencoder.component_instance_index(instance_index),
                name,
            }),
            r::ComponentAlias::CoreInstanceExport {
                kind,
                instance_index,
                name,
            } => Ok(w::Alias::CoreInstanceExport {
                kind: $reencoder.export_kind(kind)?,
                instance_index: $reencoder.instance_index(instance_index),
                name,
            }),
            r::ComponentAlias::Outer { kind, count, index } => {
                let index = by_hooks::outer_index($reencoder, kind, count, index)?;
                Ok(w::Alias::Outer {
                    kind: $reencoder.component_outer_alias_kind(kind),
                    count,
                    index,
                })
            }
        }
    };
}

// Each subsection of names that the reader still has, one behind another.
macro_rules! custom_component_name_section {
    ($reencoder:ident, $alloc:ident, $section:ident, $ceiling:ident) => {{
        let mut names = w::ComponentNameSection::new($alloc, $ceiling);
        let mut rows = $section;
        'rows: loop {
            let at = rows.place();
            match rows.next_row($alloc)? {
                Some(name) => {
                    match $reencoder
                        .parse_custom_component_name_subsection($alloc, &mut names, name)
                    {
                        Ok(()) => {}
                        Err(e) => return Err(placed(e, at)),
                    }
                }
                None => return Ok(names),
            }
        }
    }};
}

// A custom section: names are mapped, and any other is copied.
macro_rules! parse_component_custom_section {
    ($reencoder:ident, $alloc:ident, $component:ident, $section:ident) => {{
        if $section.name == "component-name" {
            let rows = r::ComponentNameSectionReader::new($section.contents)?;
            let names =
                $reencoder.custom_component_name_section($alloc, rows, $component.ceiling())?;
            add_section($component, &names)
        } else {
            let section = $reencoder.custom_section($section)?;
            add_section($component, &section)
        }
    }};
}

pub(crate) use component_alias;
pub(crate) use component_type_ref;
pub(crate) use component_val_type;
pub(crate) use custom_component_name_section;
pub(crate) use parse_component_custom_section;
