/// A field or a method of the program, by its class and its index among the fields or the methods of the class.
#[derive(Clone, Copy)]
pub struct MemberPlace {
    pub class: u32,
    pub index: usize,
}
