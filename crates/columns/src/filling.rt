ghost use Rattle.std.specs.Prelude.{◌≡◌};
ghost use Rattle.columns.specs.Filling.{blank_filled};

// The first N bytes, and blanks behind them where there are fewer.
pub fn blank_filled<const N: usize>(bytes: &[u8]) -> [u8; N]
    ensures { result ≡ blank_filled N bytes.now }
{
    let mut text = [b' '; N];
    let n = bytes.len().min(N);
    text[..n].copy_from_slice(&bytes[..n]);
    text
}
