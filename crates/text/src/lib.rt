// Text laid into a lent buffer: bytes as they are, and numbers in decimal.
#![tactic(auto)]

ghost use Rattle.std.specs.Prelude.{◌≡◌, ◌+◌, ◌≤◌, length};
ghost use Rattle.text.specs.Text.{overlay, decimal_by, decimal, longest};

// Lays bytes into the buffer, and answers the place past them.
pub fn put_bytes(out: &mut [u8], at: usize, bytes: &[u8]) -> usize
    requires { at + length bytes.now ≤ length out.old }
    ensures { (result ≡ at + length bytes.now) × (out.new ≡ overlay out.old at bytes.now) }
{
    let end = at + bytes.len();
    out[at..end].copy_from_slice(bytes);
    end
}

// The last digits of a number, at most so many.
fn put_digits(out: &mut [u8], at: usize, n: u64, left: usize) -> usize
    requires { at + left ≤ length out.old }
    ensures { (result ≡ at + length (decimal_by left n)) × (out.new ≡ overlay out.old at (decimal_by left n)) }
{
    if left == 0 {
        return at;
    }
    if n < 10 {
        out[at] = (48 + n) as u8;
        return at + 1;
    }
    let p = put_digits(out, at, n / 10, left - 1);
    out[p] = (48 + n % 10) as u8;
    p + 1
}

// Lays a number in decimal into the buffer, and answers the place past it.
pub fn put_number(out: &mut [u8], at: usize, n: u64) -> usize
    requires { at + longest ≤ length out.old }
    ensures { (result ≡ at + length (decimal n)) × (result ≤ at + longest) × (out.new ≡ overlay out.old at (decimal n)) }
{
    put_digits(out, at, n, 20)
}
