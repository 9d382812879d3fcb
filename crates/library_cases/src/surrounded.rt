//! A renamer, around which two rules add sections, as a type of its own.
//!
//! Each hook is that of `Adding`, one within the other. To hand over these as they stand costs the check two minutes more, and to
//! borrow the rules' texts, by a lifetime of the type, half a minute.
use crate::additions::Added;
use reencode_component::{
    DefaultComponent, DefaultComponentItems, DefaultComponentRows, ReencodeComponentIndices,
};
use reencode_core::{Adding, DefaultReencode};
use reencode_hooks::{Error, ReencodeIndices, Renamer, Unmapped};
use reencode_items::DefaultItems;
use std::marker::Model;
use wasm_shapes::SectionId;
use wasm_write as w;

/// A renamer with the sections of two rules, those of the second behind those of the first.
#[derive(Drop)]
pub struct Surrounded {
    adding: Adding<Adding<Renamer, Added>, Added>,
}

impl Model for Surrounded {
    ghost use Rattle.std.specs.Prelude.{string_bytes};
    ghost use Rattle.std.specs.Coded.{codes};
    ghost use Rattle.reencode_hooks.specs.Renamings.{renaming_code};
    ghost use Rattle.library_cases.specs.Additions.{Surrounding};

    ghost Value = { Surrounding };

    ghost coded = { Prim.hlevel (codes, renaming_code) };

    ghost view = { λ s. record {
      renaming = s.adding.reencoder.reencoder;
      inner = record {
        place = s.adding.reencoder.sections.place;
        name = string_bytes s.adding.reencoder.sections.name;
        contents = s.adding.reencoder.sections.contents.items;
      };
      outer = record {
        place = s.adding.sections.place;
        name = string_bytes s.adding.sections.name;
        contents = s.adding.sections.contents.items;
      };
    } };
}

impl Surrounded {
    /// The renamer with two rules around it.
    pub fn new(renamer: Renamer, first: Added, second: Added) -> Surrounded {
        let inner = Adding {
            reencoder: renamer,
            sections: first,
        };
        Surrounded {
            adding: Adding {
                reencoder: inner,
                sections: second,
            },
        }
    }

    /// The renamer without them.
    pub fn into_renamer(self) -> Renamer {
        self.adding.reencoder.reencoder
    }
}

impl ReencodeIndices for Surrounded {
    ghost use Rattle.std.specs.Prelude.{true, false};
    ghost use Rattle.reencode_hooks.specs.Renamings.{renamer_reply, renamer_next};
    ghost use Rattle.reencode_hooks.specs.Renamed.{renamer_answers};
    ghost use Rattle.library_cases.specs.Additions.{rows_of_both, rows_of_both-keep};

    type Error = Unmapped;

    ghost reply = { λ s visit. renamer_reply s.renaming visit };

    ghost next = { λ s visit. record s { renaming = renamer_next s.renaming visit } };

    ghost adds = { rows_of_both };

    ghost keeps_defaults = { true };

    ghost adds_nothing = { false };

    ghost sure = { false };

    ghost answers_ok = { λ s visit h. renamer_answers s.renaming visit h };

    ghost adds_ok = { rows_of_both-keep };

    fn data_index(&mut self, index: u32) -> Result<u32, Error<Unmapped>> {
        self.adding.data_index(index)
    }

    fn element_index(&mut self, index: u32) -> Result<u32, Error<Unmapped>> {
        self.adding.element_index(index)
    }

    fn function_index(&mut self, index: u32) -> Result<u32, Error<Unmapped>> {
        self.adding.function_index(index)
    }

    fn global_index(&mut self, index: u32) -> Result<u32, Error<Unmapped>> {
        self.adding.global_index(index)
    }

    fn memory_index(&mut self, index: u32) -> Result<u32, Error<Unmapped>> {
        self.adding.memory_index(index)
    }

    fn table_index(&mut self, index: u32) -> Result<u32, Error<Unmapped>> {
        self.adding.table_index(index)
    }

    fn tag_index(&mut self, index: u32) -> Result<u32, Error<Unmapped>> {
        self.adding.tag_index(index)
    }

    fn type_index(&mut self, index: u32) -> Result<u32, Error<Unmapped>> {
        self.adding.type_index(index)
    }

    fn data_count(&mut self, count: u32) -> Result<u32, Error<Unmapped>> {
        self.adding.data_count(count)
    }

    fn intersperse_section_hook(
        &mut self,
        module: &mut w::Module,
        after: Option<SectionId>,
        before: Option<SectionId>,
    ) -> Result<(), Error<Unmapped>> {
        match self.adding.intersperse_section_hook(module, after, before) {
            Ok(()) => Ok(()),
            Err(e) => Err(e),
        }
    }

    fn close_section_hook(
        &mut self,
        module: &mut w::Module,
        section: SectionId,
    ) -> Result<(), Error<Unmapped>> {
        match self.adding.close_section_hook(module, section) {
            Ok(()) => Ok(()),
            Err(e) => Err(e),
        }
    }
}

impl ReencodeComponentIndices for Surrounded {
    fn component_type_index(&mut self, index: u32) -> u32 {
        self.adding.component_type_index(index)
    }

    fn component_instance_index(&mut self, index: u32) -> u32 {
        self.adding.component_instance_index(index)
    }

    fn component_func_index(&mut self, index: u32) -> u32 {
        self.adding.component_func_index(index)
    }

    fn component_index(&mut self, index: u32) -> u32 {
        self.adding.component_index(index)
    }

    fn module_index(&mut self, index: u32) -> u32 {
        self.adding.module_index(index)
    }

    fn instance_index(&mut self, index: u32) -> u32 {
        self.adding.instance_index(index)
    }

    fn component_value_index(&mut self, index: u32) -> u32 {
        self.adding.component_value_index(index)
    }

    fn outer_component_type_index(&mut self, count: u32, index: u32) -> u32 {
        self.adding.outer_component_type_index(count, index)
    }

    fn outer_component_index(&mut self, count: u32, index: u32) -> u32 {
        self.adding.outer_component_index(count, index)
    }

    fn outer_module_index(&mut self, count: u32, index: u32) -> u32 {
        self.adding.outer_module_index(count, index)
    }

    fn outer_type_index(&mut self, count: u32, index: u32) -> Result<u32, Error<Unmapped>> {
        self.adding.outer_type_index(count, index)
    }

    fn push_depth(&mut self) -> Result<(), Error<Unmapped>> {
        self.adding.push_depth()
    }

    fn pop_depth(&mut self) {
        self.adding.pop_depth();
    }
}

impl DefaultItems for Surrounded {}

impl DefaultReencode for Surrounded {}

impl DefaultComponentItems for Surrounded {}

impl DefaultComponentRows for Surrounded {}

impl DefaultComponent for Surrounded {}
