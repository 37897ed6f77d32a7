// The record of an MDT, as the tests send it.
ghost use Rattle.std.specs.Prelude.{◌≡◌, ◌++◌};
ghost use Rattle.service.specs.Words.{bytes_of};

// Control word and info, low bytes first.
pub fn record(control: u16, info: u16) -> [u8; 4]
    ensures { result ≡ bytes_of control ++ bytes_of info }
{
    let [a, b] = control.to_le_bytes();
    let [c, d] = info.to_le_bytes();
    [a, b, c, d]
}
