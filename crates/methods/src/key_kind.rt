// Which key a method takes.

#[derive(Clone, Copy)]
pub enum KeyKind {
    // the object key
    Object,
    // the object key, salted
    Salted,
    // the file key
    File,
}
