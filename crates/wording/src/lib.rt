// Text put together in a lent buffer.
#![tactic(auto)]

ghost use Rattle.std.specs.Prelude.{◌≡◌, ◌≤◌, [], ◌∷◌, length, drop};
ghost use Rattle.wording.specs.Text.{text, ◌then◌, decimal, FillsForm};

// The run behind the first bytes of the buffer, and how many there are then; a run that does not fit is left out.
// Kept: a struct of the buffer and the size would stand around two private functions, and is longer.
fn word(out: &mut [u8], size: usize, run: &[u8]) -> usize
    requires { size ≤ length out.old }
    ensures inside { result ≤ length out.new }
    ensures added { text out.new result ≡ (text out.old size then run.now) }
{
    if out.len() - size < run.len() {
        return size;
    }
    lists::paste(out, size, run);
    size + run.len()
}

// A byte behind the first bytes of the buffer; one that does not fit is left out.
// Kept: a run of one byte through `word` costs a call of the C library's memcpy for each byte of a form.
fn byte(out: &mut [u8], size: usize, b: u8) -> usize
    requires { size ≤ length out.old }
    ensures inside { result ≤ length out.new }
    ensures added { text out.new result ≡ (text out.old size then (b ∷ [])) }
{
    if out.len() <= size {
        return size;
    }
    out[size] = b;
    size + 1
}

// The decimal digits of a number at the end of the room, and where they begin.
// Kept: std writes digits only inside `fmt`, and README says that this stands on std alone.
fn decimal(n: u64, room: &mut [u8; 20]) -> usize
    ensures in_bounds { result ≤ 20 }
    ensures digits { drop result room.new ≡ decimal n }
{
    let mut k = 19;
    let mut rest = n;
    while 10 <= rest {
        room[k] = b'0' + (rest % 10) as u8;
        k -= 1;
        rest /= 10;
    }
    room[k] = b'0' + rest as u8;
    k
}

// A number in decimal digits behind the first bytes of the buffer.
fn number(out: &mut [u8], size: usize, n: u64) -> usize
    requires { size ≤ length out.old }
    ensures inside { result ≤ length out.new }
    ensures added { text out.new result ≡ (text out.old size then decimal n) }
{
    if n < 10 {
        return byte(out, size, b'0' + n as u8);
    }
    let mut digits = [0u8; 20];
    let k = decimal(n, &mut digits);
    word(out, size, &digits[k..])
}

// The form with the numbers in decimal digits in place of its % marks, and its length.
// Kept: a buffer and a length, of which `FillsForm` and `filled_determined` speak; `k` counts the marks, and not the bytes.
pub fn filled(out: &mut [u8], form: &[u8], numbers: &[u64]) -> usize
    ensures filled { FillsForm out.old form.now numbers.now result out.new }
    ensures inside { result ≤ length out.new }
{
    let mut n = 0;
    let mut k: usize = 0;
    for &b in form {
        if b == b'%' {
            n = number(out, n, numbers.get(k).copied().unwrap_or(0));
            k += 1;
        } else {
            n = byte(out, n, b);
        }
    }
    n
}
