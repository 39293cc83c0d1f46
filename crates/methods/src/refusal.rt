// When a method says no.

#[derive(Clone, Copy)]
pub enum MethodRefusal {
    // 13: the method does not admit a key of this length. AES-256 under a 16-byte key.
    KeyLength,
    // 16: restoring gives nothing. Chaining, 15 bytes: the start vector is not complete.
    TooShort,
}
