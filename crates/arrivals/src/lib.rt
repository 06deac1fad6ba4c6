// The arrival order: the numbers of all live processes in the order in which they last joined a line, behind a zero for
// each free place. Every line of the panel is a view of it.
#![tactic(auto)]

ghost use Rattle.std.specs.Prelude.{◌≡◌, ◌==◌, ◌<◌, [], ◌∷◌, ◌++◌, position};
ghost use Rattle.arrivals.specs.Order.{cut, joined, moved_last, deleted};

// Where x stands, if it is listed.
fn place_of(order: &[u8; 32], x: u8) -> Option<usize>
    ensures { result ≡ position (λ y. y == x) order.now }
{
    order.iter().position(|y| *y == x)
}

// The one at place k goes, those behind it move up, and x stands last.
fn moved_up(mut order: [u8; 32], k: usize, x: u8) -> [u8; 32]
    requires { k < 32 }
    ensures { result ≡ cut k order ++ (x ∷ []) }
{
    order.copy_within(k + 1..32, k);
    order[31] = x;
    order
}

// A new process joins: the oldest place, a zero, makes room, and x stands last.
#[tactic(auto, unfolding(crate::specs::Order::joined))]
pub fn joined(order: [u8; 32], x: u8) -> [u8; 32]
    ensures { result ≡ joined x order }
{
    moved_up(order, 0, x)
}

// x joins a line: it goes to the end. One that is not listed changes nothing.
pub fn moved_last(order: [u8; 32], x: u8) -> [u8; 32]
    ensures { result ≡ moved_last x order }
{
    match place_of(&order, x) {
        Some(k) => moved_up(order, k, x),
        None => order,
    }
}

// x is deleted: it goes, and there is one zero more in front. One that is not listed changes nothing.
pub fn deleted(mut order: [u8; 32], x: u8) -> [u8; 32]
    ensures { result ≡ deleted x order }
{
    if let Some(k) = place_of(&order, x) {
        order[..k + 1].rotate_right(1);
        order[0] = 0;
    }
    order
}
