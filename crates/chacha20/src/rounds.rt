// The rounds, on a state of sixteen words.
ghost use Rattle.std.specs.Prelude.{◌≡◌, ℕ, ◌+◌, ◌<◌};
ghost use Rattle.std.specs.Simd.Lanes.{zip2};
ghost use Rattle.chacha20.specs.ChaCha20.{plus, line, quarter_round, column_round, diagonal_round, double_rounds, mixed};

// a += b; d ^= a; d <<<= n
fn line_at(s: &mut [u32; 16], a: usize, b: usize, d: usize, n: u32)
    requires { (a < 16) × ((b < 16) × ((d < 16) × ((0 < n) × (n < 32)))) }
    ensures { s.new ≡ line s.old a b d n }
{
    s[a] = s[a].wrapping_add(s[b]);
    s[d] = (s[d] ^ s[a]).rotate_left(n);
}

fn quarter_round(s: &mut [u32; 16], a: usize, b: usize, c: usize, d: usize)
    requires { (a < 16) × ((b < 16) × ((c < 16) × (d < 16))) }
    ensures { s.new ≡ quarter_round s.old a b c d }
{
    line_at(s, a, b, d, 16);
    line_at(s, c, d, b, 12);
    line_at(s, a, b, d, 8);
    line_at(s, c, d, b, 7);
}

// A round down the columns and one along the diagonals.
fn double_round(s: &mut [u32; 16])
    ensures { s.new ≡ diagonal_round (column_round s.old) }
{
    quarter_round(s, 0, 4, 8, 12);
    quarter_round(s, 1, 5, 9, 13);
    quarter_round(s, 2, 6, 10, 14);
    quarter_round(s, 3, 7, 11, 15);
    quarter_round(s, 0, 5, 10, 15);
    quarter_round(s, 1, 6, 11, 12);
    quarter_round(s, 2, 7, 8, 13);
    quarter_round(s, 3, 4, 9, 14);
}

// The twenty rounds.
#[tactic(auto, unfolding(crate::specs::ChaCha20::double_rounds))]
pub fn twenty_rounds(s: &mut [u32; 16])
    ensures { s.new ≡ double_rounds 10 s.old }
{
    for _i in 0..10usize {
        double_round(s);
    }
}

// The words of `input` added to those of `s`.
fn add_words(s: &mut [u32; 16], input: &[u32; 16])
    ensures { s.new ≡ zip2 plus s.old input.now }
{
    // By index: of a state that is written through a `zip` a proof knows the length alone.
    for (i, word) in s.iter_mut().enumerate() {
        *word = word.wrapping_add(input[i]);
    }
}

// The words of a block, made in `s` of the state that it begins from.
pub fn mix(input: &[u32; 16], s: &mut [u32; 16])
    ensures { s.new ≡ mixed input.now }
{
    *s = *input;
    twenty_rounds(s);
    add_words(s, input);
}
