//! What typing asks of a linked world, from its tables.

ghost use Rattle.link_model.specs.Worlds.{world_of};

use crate::World;
use link_model::{FieldInfo, Lookups, MethodCode, MethodInfo, Resolutions};
use stack_maps::VType;

impl Lookups for World {
    ghost world = { world_of };

    fn class_count(&self) -> usize {
        self.classes().len()
    }

    fn is_interface(&self, class: u32) -> bool {
        self.tables().hierarchy().classes().is_interface(class)
    }

    fn is_below(&self, a: u32, b: u32) -> bool {
        self.tables().hierarchy().is_below(a, b)
    }

    fn parent(&self, class: u32) -> Option<u32> {
        World::parent(self, class)
    }

    fn name_number(&self, name: &[u16]) -> Option<u32> {
        self.tables().name_number(name)
    }

    fn name_count(&self) -> u32 {
        self.tables().name_count()
    }

    fn object(&self) -> Option<u32> {
        self.tables().object()
    }

    fn cloneable(&self) -> Option<u32> {
        self.tables().cloneable()
    }

    fn serializable(&self) -> Option<u32> {
        self.tables().serializable()
    }

    fn string(&self) -> Option<u32> {
        self.tables().string()
    }

    fn throwable(&self) -> Option<u32> {
        self.tables().throwable()
    }

    fn field(&self, n: u32) -> Option<&FieldInfo> {
        self.tables().field(n)
    }

    fn method_count(&self) -> u32 {
        self.tables().method_count()
    }

    fn method(&self, n: u32) -> Option<&MethodInfo> {
        self.tables().method(n)
    }

    fn code(&self, method: u32) -> Option<&MethodCode> {
        self.tables().code(method)
    }

    #[inline(always)]
    fn resolutions(&self, method: u32) -> Resolutions<'_> {
        self.tables().resolutions(method)
    }

    fn catches(&self, method: u32) -> &[Option<u32>] {
        self.tables().catches(method)
    }

    fn class_type(&self, class: u32) -> VType {
        self.tables().class_type(class)
    }

    fn pool_type(&self, class: u32, index: u16) -> Option<VType> {
        self.tables().pool_type(class, index)
    }
}
