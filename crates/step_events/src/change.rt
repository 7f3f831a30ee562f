// The words that a change to a state is made on.
ghost use Rattle.std.specs.Prelude.{◌*◌, ◌≤◌, length};

use state::StoredMut;

// The state, and the words lent for events, at whose start the rows told so far stand.
// The steps of other crates are no methods of it, since it is this crate's. Each asks for the room that it needs, by rows or by a weight
// (`SomeRoom`): how many rows it may still tell the step alone knows, so that is no fact of the struct.
#[derive(Drop)]
pub struct Change<'a, 'b> {
    pub state: StoredMut<'a>,
    pub events: &'b mut [u32],
    pub told: usize,
    ghost within: { 34 * told ≤ length events.now },
}
