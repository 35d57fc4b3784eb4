// Arithmetic modulo 2^130 - 5, on numbers of five limbs.
ghost use Rattle.std.specs.Prelude.{◌≡◌, ◌+◌, ◌*◌, ◌%◌, ◌^◌, ◌<◌, ◌≤◌};
ghost use Rattle.octets.specs.Endian.{le};
ghost use Rattle.poly1305.specs.Poly1305.{prime};
ghost use Rattle.poly1305.specs.Bounds.{Carried, Summed};

use octets::word_at;

const LIMB_BITS: u32 = 26;

const LIMB_MASK: u64 = 0x3ff_ffff;

// 130 bits as five limbs of 26, each with room to carry. They are fields and no array, since each has its own bound and its own part in the products.
#[derive(Clone, Copy)]
pub struct Limbs {
    pub(crate) l0: u64,
    pub(crate) l1: u64,
    pub(crate) l2: u64,
    pub(crate) l3: u64,
    pub(crate) l4: u64,
    ghost carried: { Carried l0 l1 l2 l3 l4 },
}

// The sum of two such numbers, before the next carry.
#[derive(Clone, Copy)]
struct Sum {
    l0: u64,
    l1: u64,
    l2: u64,
    l3: u64,
    l4: u64,
    ghost summed: { Summed l0 l1 l2 l3 l4 },
}

impl Limbs {
    ghost use Rattle.poly1305.specs.Limbs.{number, value, total};

    pub(crate) const ZERO: Limbs = Limbs {
        l0: 0,
        l1: 0,
        l2: 0,
        l3: 0,
        l4: 0,
    };

    #[tactic(auto, unfolding(crate::specs::Poly1305::prime, crate::specs::Limbs::number))]
    pub(crate) fn zero() -> Limbs
        ensures { value result % prime ≡ 0 }
    {
        Limbs::ZERO
    }

    // The number of two words and of `top`, which stands in the highest limb.
    pub(crate) fn from_words(lo: u64, hi: u64, top: u64) -> Limbs
        requires { top ≤ 2 ^ 24 }
        ensures { value result ≡ lo + 2 ^ 64 * hi + 2 ^ 104 * top }
    {
        Limbs {
            l0: lo & LIMB_MASK,
            l1: (lo >> LIMB_BITS) & LIMB_MASK,
            l2: ((hi << 12) | (lo >> 52)) & LIMB_MASK,
            l3: (hi >> 14) & LIMB_MASK,
            l4: (hi >> 40) + top,
        }
    }

    // Each sum passes what it has above 26 bits on to the next one, and the last passes it, five times, to the first.
    fn carry(d0: u64, d1: u64, d2: u64, d3: u64, d4: u64) -> Limbs
        requires { (d0 < 2 ^ 61) × ((d1 < 2 ^ 61) × ((d2 < 2 ^ 61) × ((d3 < 2 ^ 61) × (d4 < 2 ^ 61)))) }
        ensures { value result % prime ≡ number d0 d1 d2 d3 d4 % prime }
    {
        let e1 = d1 + (d0 >> LIMB_BITS);
        let e2 = d2 + (e1 >> LIMB_BITS);
        let e3 = d3 + (e2 >> LIMB_BITS);
        let e4 = d4 + (e3 >> LIMB_BITS);
        let e0 = (d0 & LIMB_MASK) + 5 * (e4 >> LIMB_BITS);
        Limbs {
            l0: e0 & LIMB_MASK,
            l1: (e1 & LIMB_MASK) + (e0 >> LIMB_BITS),
            l2: e2 & LIMB_MASK,
            l3: e3 & LIMB_MASK,
            l4: e4 & LIMB_MASK,
        }
    }

    #[tactic(auto, unfolding(crate::specs::Limbs::number))]
    fn plus(self, other: Limbs) -> Sum
        ensures { total result ≡ value self + value other }
    {
        Sum {
            l0: self.l0 + other.l0,
            l1: self.l1 + other.l1,
            l2: self.l2 + other.l2,
            l3: self.l3 + other.l3,
            l4: self.l4 + other.l4,
        }
    }

    // A block is added, with `top` in the highest limb, and the sum multiplied by r.
    pub(crate) fn absorb(self, r: Limbs, block: &[u8; 16], top: u64) -> Limbs
        requires { top ≤ 2 ^ 24 }
        ensures { value result % prime ≡ ((value self + (le block.now + 2 ^ 104 * top)) * value r) % prime }
    {
        let added = Limbs::from_words(word_at(block, 0), word_at(block, 8), top);
        self.plus(added).times(r)
    }

    // The lowest 128 bits of the number modulo the prime.
    pub(crate) fn reduced(self) -> u128
        ensures { result ≡ (value self % prime) % 2 ^ 128 }
    {
        // With 5 added, a number that reaches the prime passes 130 bits.
        let c0 = (self.l0 + 5) >> LIMB_BITS;
        let c1 = (self.l1 + c0) >> LIMB_BITS;
        let c2 = (self.l2 + c1) >> LIMB_BITS;
        let c3 = (self.l3 + c2) >> LIMB_BITS;
        let over = (self.l4 + c3) >> LIMB_BITS;
        let low = self.l0 as u128
            + 5 * over as u128
            + ((self.l1 as u128) << LIMB_BITS)
            + ((self.l2 as u128) << 52)
            + ((self.l3 as u128) << 78);
        low.wrapping_add((self.l4 as u128) << 104)
    }
}

impl Sum {
    ghost use Rattle.poly1305.specs.Limbs.{value, total};

    fn times(self, r: Limbs) -> Limbs
        ensures { value result % prime ≡ (total self * value r) % prime }
    {
        let s1 = 5 * r.l1;
        let s2 = 5 * r.l2;
        let s3 = 5 * r.l3;
        let s4 = 5 * r.l4;
        Limbs::carry(
            self.dot(r.l0, s4, s3, s2, s1),
            self.dot(r.l1, r.l0, s4, s3, s2),
            self.dot(r.l2, r.l1, r.l0, s4, s3),
            self.dot(r.l3, r.l2, r.l1, r.l0, s4),
            self.dot(r.l4, r.l3, r.l2, r.l1, r.l0),
        )
    }

    // The sum of the limbs' products with five factors.
    fn dot(self, a: u64, b: u64, c: u64, d: u64, e: u64) -> u64
        requires { (a < 2 ^ 29) × ((b < 2 ^ 29) × ((c < 2 ^ 29) × ((d < 2 ^ 29) × (e < 2 ^ 29)))) }
        ensures value { result ≡ self.l0 * a + self.l1 * b + self.l2 * c + self.l3 * d + self.l4 * e }
        ensures below { result < 2 ^ 61 }
    {
        product(self.l0, a)
            + product(self.l1, b)
            + product(self.l2, c)
            + product(self.l3, d)
            + product(self.l4, e)
    }
}

fn product(a: u64, b: u64) -> u64
    requires { (a < 2 ^ 28) × (b < 2 ^ 29) }
    ensures value { result ≡ a * b }
    ensures below { result < 2 ^ 57 }
{
    a * b
}
