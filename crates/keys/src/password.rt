// Passwords, filled up to 32 bytes.
ghost use Rattle.std.specs.Prelude.{◌≡◌, ◌≤◌, length};
ghost use Rattle.byte_strings.specs.Bytes.{Writes};
ghost use Rattle.keys.specs.Password.{password_padding, padded, Padded};

const PASSWORD_PADDING: [u8; 32] = [
    0x28, 0xBF, 0x4E, 0x5E, 0x4E, 0x75, 0x8A, 0x41, 0x64, 0x00, 0x4E, 0x56, 0xFF, 0xFA, 0x01, 0x08,
    0x2E, 0x2E, 0x00, 0xB6, 0xD0, 0x68, 0x3E, 0x80, 0x2F, 0x0C, 0xA9, 0xFE, 0x64, 0x53, 0x69, 0x7A,
];

// The padding on its own.
pub(crate) fn password_padding() -> [u8; 32]
    ensures { result ≡ password_padding }
{
    PASSWORD_PADDING
}

fn write_padded(password: &[u8], area: &mut [u8])
    requires { 32 ≤ length area.old }
    ensures { Writes (padded password.now) area.old area.new }
{
    let n = password.len().min(32);
    area[0..n].copy_from_slice(&password[0..n]);
    area[n..32].copy_from_slice(&PASSWORD_PADDING[0..32 - n]);
}

// Writes the password, cut or filled to 32 bytes, to the front of the area, and answers that number;
// none, with nothing changed, where the area is shorter.
pub fn pad_password(password: &[u8], area: &mut [u8]) -> Option<usize>
    ensures { Padded password.now area.old result area.new }
{
    if area.len() < 32 {
        return None;
    }
    write_padded(password, area);
    Some(32)
}
