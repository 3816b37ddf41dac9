// What the block steps of SHA-256 and SM3 share: words of 32 bits, the hash value of eight of them, and the words of a block.
#![tactic(auto)]

ghost use Rattle.std.specs.Prelude.{◌≡◌, [], ◌∷◌};
ghost use Rattle.octets.specs.Numbers.{unbe};
ghost use Rattle.words.specs.Words.{add32};
ghost use Rattle.words.specs.Known.{loaded};
ghost use Rattle.words.specs.Claims.{RotationsAgree, LoadedIsKnown, EveryStep, StepLosesNothing};

// A hash value: eight words.
#[derive(Clone, Copy)]
pub struct State {
    pub a: u32,
    pub b: u32,
    pub c: u32,
    pub d: u32,
    pub e: u32,
    pub f: u32,
    pub g: u32,
    pub h: u32,
}

// What a block step answers.
#[derive(Clone, Copy)]
pub enum Stepped {
    Done(State),
    Refused(u32),
}

// The sum of two words, modulo 2^32.
pub fn add(x: u32, y: u32) -> u32
    ensures { result ≡ add32 x y }
{
    std::num::wrapping_add_u32(x, y)
}

// A word of four bytes. Here and not a call of `octets`: it is made sixteen times for each block.
fn big_endian(a: u8, b: u8, c: u8, d: u8) -> u32
    ensures { result ≡ unbe (a ∷ b ∷ c ∷ d ∷ []) }
{
    ((a as u32 * 256 + b as u32) * 256 + c as u32) * 256 + d as u32
}

// The sixteen words of the 64 bytes from p on, over the first words of w. Where m has fewer bytes, or w fewer words, w stays as it was.
pub fn load(m: &[u8], p: usize, w: &mut [u32])
    ensures { w.new ≡ loaded m.now p w.old }
{
    if m.len() < 64 {
        return;
    }
    if m.len() - 64 < p {
        return;
    }
    if w.len() < 16 {
        return;
    }
    let mut t = 0;
    while t < 16 {
        let q = p + 4 * t;
        w[t] = big_endian(m[q], m[q + 1], m[q + 2], m[q + 3]);
        t += 1;
    }
}

// What the block steps and the layers above may use beside the contracts. It does nothing.
pub fn claims()
    ensures rotations_agree { RotationsAgree }
    ensures loaded_is_known { LoadedIsKnown }
    ensures every_step { EveryStep }
    ensures step_loses_nothing { StepLosesNothing }
{}
