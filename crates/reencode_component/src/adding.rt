//! The hooks of a reencoder that adds sections: those of the one that it goes by.
use crate::indices::ReencodeComponentIndices;
use reencode_core::{Adding, SectionRule};
use reencode_hooks::Error;

impl<R: ReencodeComponentIndices, S: SectionRule> ReencodeComponentIndices for Adding<R, S> {
    fn component_type_index(&mut self, index: u32) -> u32 {
        self.reencoder.component_type_index(index)
    }

    fn component_instance_index(&mut self, index: u32) -> u32 {
        self.reencoder.component_instance_index(index)
    }

    fn component_func_index(&mut self, index: u32) -> u32 {
        self.reencoder.component_func_index(index)
    }

    fn component_index(&mut self, index: u32) -> u32 {
        self.reencoder.component_index(index)
    }

    fn module_index(&mut self, index: u32) -> u32 {
        self.reencoder.module_index(index)
    }

    fn instance_index(&mut self, index: u32) -> u32 {
        self.reencoder.instance_index(index)
    }

    fn component_value_index(&mut self, index: u32) -> u32 {
        self.reencoder.component_value_index(index)
    }

    fn outer_component_type_index(&mut self, count: u32, index: u32) -> u32 {
        self.reencoder.outer_component_type_index(count, index)
    }

    fn outer_component_index(&mut self, count: u32, index: u32) -> u32 {
        self.reencoder.outer_component_index(count, index)
    }

    fn outer_module_index(&mut self, count: u32, index: u32) -> u32 {
        self.reencoder.outer_module_index(count, index)
    }

    fn outer_type_index(&mut self, count: u32, index: u32) -> Result<u32, Error<R::Error>> {
        self.reencoder.outer_type_index(count, index)
    }

    fn push_depth(&mut self) -> Result<(), Error<R::Error>> {
        self.reencoder.push_depth()
    }

    fn pop_depth(&mut self) {
        self.reencoder.pop_depth();
    }
}
