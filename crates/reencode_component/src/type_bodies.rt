//! The default bodies of the calls that map types with others inside, which the trait and `component_utils` share, and what these
//! bodies have in common.

// A scope, each declaration of it that the reader still has by a call that adds what it becomes.
macro_rules! scope {
    ($reencoder:ident, $alloc:ident, $ty:ident, $made:ident: $of:ident, $row:ident => $step:expr) => {{
        let mut rows = $ty;
        // (fewer than 2^32, so that the rows made of them are never too many)
        let _ = rows.left();
        let mut $made = w::$of::new($alloc);
        $reencoder.push_depth()?;
        'rows: while let Some($row) = rows.next_row($alloc)? {
            $step?;
        }
        $reencoder.pop_depth();
        Ok($made)
    }};
}

macro_rules! component_module_type {
    ($reencoder:ident, $alloc:ident, $ty:ident) => {
        $crate::type_bodies::scope!($reencoder, $alloc, $ty, module: ModuleType, row => $reencoder.parse_component_module_type_declaration($alloc, &mut module, row))
    };
}

macro_rules! parse_component_core_type {
    ($reencoder:ident, $alloc:ident, $core:ident) => {
        match $core {
            r::CoreType::Rec(group) => {
                let group = $reencoder.parse_recursive_type_group($alloc, group)?;
                Ok(w::CoreType::Rec(group))
            }
            r::CoreType::Module(declarations) => {
                let declarations = $reencoder.component_module_type($alloc, declarations)?;
                Ok(w::CoreType::Module(declarations))
            }
        }
    };
}

pub(crate) use component_module_type;
pub(crate) use parse_component_core_type;
pub(crate) use scope;
