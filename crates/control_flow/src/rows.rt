// The cells of one code offset.
use std::marker::Model;

// Whether an instruction begins at the offset, 1 or 0; where control falls and jumps to; the bytes popped and pushed; the least depth of a store; and
// the callee. The definitions have such a row as a list.
#[derive(Clone, Copy)]
pub struct Row {
    pub start: u16,
    pub fall: u16,
    pub jump: u16,
    pub pops: u16,
    pub pushes: u16,
    pub store: u16,
    pub call: u16,
}

impl Model for Row {
    ghost use Rattle.std.specs.Prelude.{ℕ, List, [], ◌∷◌, slice_index};

    ghost Value = { List ℕ };

    ghost view = { λ r. r.start ∷ r.fall ∷ r.jump ∷ r.pops ∷ r.pushes ∷ r.store ∷ r.call ∷ [] };

    ghost inverse = { λ l. record { start = slice_index l 0; fall = slice_index l 1; jump = slice_index l 2; pops = slice_index l 3; pushes = slice_index l 4; store = slice_index l 5; call = slice_index l 6 } };
}

impl Row {
    // A row of no instruction.
    pub const NONE: Row = Row {
        start: 0,
        fall: 0,
        jump: 0,
        pops: 0,
        pushes: 0,
        store: 0,
        call: 0,
    };
}
