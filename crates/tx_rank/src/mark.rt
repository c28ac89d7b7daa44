// What is known of an exchange while a code is ranked.

/// An exchange is not seen yet, on the walk in hand, or ranked.
#[derive(Clone, Copy)]
pub enum Mark {
    Unseen,
    Open,
    Ranked(u16),
}
