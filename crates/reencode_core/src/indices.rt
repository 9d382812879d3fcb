//! The hooks for indices, by their space.
ghost use Rattle.std.specs.Prelude.{◌≡◌, true};
ghost use Rattle.wasm_shapes.specs.declared.Visit.TheVariants.{Index};
ghost use Rattle.wasm_shapes.specs.Types.{is_core};
ghost use Rattle.reencode_hooks.specs.Hooks.{Replies};
ghost use Rattle.reencode_hooks.specs.Run.{NeverWants};

use reencode_hooks::{Error, ReencodeIndices};
use wasm_shapes::Space;

/// The new index of a space of core modules.
#[inline(always)]
pub(crate) fn ask_index<R: ReencodeIndices>(
    reencoder: &mut R,
    space: Space,
    index: u32,
) -> Result<u32, Error<R::Error>>
    requires { is_core space ≡ true }
    ensures answer { Replies R.reply R.next reencoder.old reencoder.new (Index space index) result }
    ensures sure { NeverWants R.sure result }
{
    match space {
        Space::Data => reencoder.data_index(index),
        Space::Element => reencoder.element_index(index),
        Space::Function => reencoder.function_index(index),
        Space::Global => reencoder.global_index(index),
        Space::Memory => reencoder.memory_index(index),
        Space::Table => reencoder.table_index(index),
        Space::Tag => reencoder.tag_index(index),
        Space::Type_ => reencoder.type_index(index),
        _ => unreachable!(),
    }
}
