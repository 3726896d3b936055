/// What has an attribute (JVMS 4.7). An attribute's name is recognized in certain holders only.
#[derive(Clone, Copy)]
pub enum Holder {
    Class,
    Field,
    Method,
}
