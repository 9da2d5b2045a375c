use chart::side::Side;

/// A call that may change a register.
#[derive(Clone, Copy)]
pub enum Call<'a> {
    /// Begin a draft of claims on a side.
    Open(Side),
    /// Claim that the value bounds the distance of `s` and `t` on the draft's side.
    Claim {
        s: usize,
        t: usize,
        value: u32,
    },
    /// The draft takes no more claims, and then showings.
    Close,
    /// Show the claim of `s` and `t` by these words.
    Show {
        s: usize,
        t: usize,
        words: &'a [i32],
    },
    /// Write the draft's claims into the table of its side.
    Enter,
    /// Forget the draft.
    Abandon,
}
