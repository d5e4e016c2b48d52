//! Breadth first over a table of places.
#![tactic(auto)]

ghost use Rattle.std.specs.Prelude.{◌≡◌, All, ◌≢◌, ℕ, ◌+◌, ◌<◌, ◌≤◌, ◌^◌, ◌⊎◌, List, [], ◌∷◌, ◌++◌, length, take, drop, vec_capacity};
ghost use Rattle.wh_field.specs.Tables.{IsWalled, IsReady, IsLevelled, IsSameGround, IsSpreading, HasRoom, IsListed, IsForgotten, IsVisit, IsMarking, IsLeastAmong, IsLeastMet, AllMet, value, unseen, blocked};

/// What a table has where no walk has come yet.
pub const UNSEEN: u32 = u32::MAX;

/// What a table has where no walk may come.
pub const BLOCKED: u32 = u32::MAX - 1;

/// Marks a place with a distance and lists it, where it was not met before.
pub fn visit(table: &mut [u32], queue: &mut Vec<u32>, place: usize, distance: u32)
    requires inside { place < length table.old }
    requires fits { place < 2 ^ 32 }
    requires distance { distance < BLOCKED }
    requires room { HasRoom (vec_capacity queue.old) table.old queue.old.items }
    ensures visited { IsVisit table.old queue.old.items place distance table.new queue.new.items }
    ensures room { HasRoom (vec_capacity queue.new) table.new queue.new.items }
{
    if table[place] == UNSEEN {
        queue.push_reserved(place as u32);
        table[place] = distance;
    }
}

/// The same for the place below another. It is looked up in the table from its second row on, the same for all places.
fn visit_below(table: &mut [u32], queue: &mut Vec<u32>, stride: usize, place: usize, distance: u32)
    requires inside { place + stride < length table.old }
    requires fits { place + stride < 2 ^ 32 }
    requires distance { distance < BLOCKED }
    requires room { HasRoom (vec_capacity queue.old) table.old queue.old.items }
    ensures visited { IsVisit table.old queue.old.items (place + stride) distance table.new queue.new.items }
    ensures room { HasRoom (vec_capacity queue.new) table.new queue.new.items }
{
    if table[stride..][place] == UNSEEN {
        queue.push_reserved((place + stride) as u32);
        table[place + stride] = distance;
    }
}

/// Marks the places beside one place with a distance, where they were not met before.
fn spread(table: &mut [u32], queue: &mut Vec<u32>, stride: usize, place: usize, distance: u32)
    requires positive { 0 < stride }
    requires above { stride ≤ place }
    requires below { place + stride < length table.old }
    requires few { length table.old < BLOCKED }
    requires distance { distance < BLOCKED }
    requires room { HasRoom (vec_capacity queue.old) table.old queue.old.items }
    ensures marks { IsMarking stride place distance table.old queue.old.items table.new queue.new.items }
    ensures met { AllMet stride place table.new }
    ensures room { HasRoom (vec_capacity queue.new) table.new queue.new.items }
{
    visit(table, queue, place + 1, distance);
    visit(table, queue, place - 1, distance);
    visit_below(table, queue, stride, place, distance);
    visit(table, queue, place - stride, distance);
}

/// Goes through the layer that the queue has from `head` on, and appends the next one to the list.
fn next_layer(table: &mut [u32], queue: &mut Vec<u32>, head: usize, stride: usize, distance: u32)
    requires walled { IsWalled stride table.old }
    requires layer { head < length queue.old.items }
    requires spreading { IsSpreading stride distance table.old [] (drop head queue.old.items) }
    requires room { HasRoom (vec_capacity queue.old) table.old queue.old.items }
    requires listed { IsListed table.old queue.old.items }
    ensures ground { IsSameGround table.old table.new }
    ensures spreading { IsSpreading stride (distance + 1) table.new [] (drop (length queue.old.items) queue.new.items) }
    ensures room { HasRoom (vec_capacity queue.new) table.new queue.new.items }
    ensures listed { IsListed table.new queue.new.items }
    ensures longer { length queue.old.items ≤ length queue.new.items }
    ensures behind { take (length queue.old.items) queue.new.items ≡ queue.old.items }
{
    let end = queue.len();
    for k in head..end {
        let place = queue[k] as usize;
        spread(table, queue, stride, place, distance + 1);
    }
}

/// How far a table is filled: up to a distance, whose places the queue has from `head` on.
#[derive(Clone, Copy, Debug, PartialEq, Eq)]
pub struct Front {
    pub head: usize,
    pub distance: u32,
}

/// Fills a table layer by layer until a place is met, or no layer is left.
pub fn fill_until(
    table: &mut [u32],
    queue: &mut Vec<u32>,
    stride: usize,
    front: Front,
    place: usize,
) -> Front
    requires walled { IsWalled stride table.old }
    requires spreading { IsSpreading stride front.distance table.old [] (drop front.head queue.old.items) }
    requires head { front.head ≤ length queue.old.items }
    requires room { HasRoom (vec_capacity queue.old) table.old queue.old.items }
    requires listed { IsListed table.old queue.old.items }
    requires inside { place < length table.old }
    ensures ground { IsSameGround table.old table.new }
    ensures spreading { IsSpreading stride result.distance table.new [] (drop result.head queue.new.items) }
    ensures head { result.head ≤ length queue.new.items }
    ensures room { HasRoom (vec_capacity queue.new) table.new queue.new.items }
    ensures listed { IsListed table.new queue.new.items }
    ensures met { value table.new place ≡ unseen → IsLevelled stride table.new }
    ensures farther { front.distance ≤ result.distance }
    ensures done { length queue.old.items ≤ front.head → length queue.new.items ≤ result.head }
{
    let mut front = front;
    while front.head < queue.len() && table[place] == UNSEEN {
        let end = queue.len();
        next_layer(table, queue, front.head, stride, front.distance);
        front = Front {
            head: end,
            distance: front.distance + 1,
        };
    }
    front
}

/// Fills a table layer by layer up to a distance, or until no layer is left.
pub fn fill_level(
    table: &mut [u32],
    queue: &mut Vec<u32>,
    stride: usize,
    front: Front,
    level: u32,
) -> Front
    requires walled { IsWalled stride table.old }
    requires spreading { IsSpreading stride front.distance table.old [] (drop front.head queue.old.items) }
    requires head { front.head ≤ length queue.old.items }
    requires room { HasRoom (vec_capacity queue.old) table.old queue.old.items }
    requires listed { IsListed table.old queue.old.items }
    ensures ground { IsSameGround table.old table.new }
    ensures spreading { IsSpreading stride result.distance table.new [] (drop result.head queue.new.items) }
    ensures head { result.head ≤ length queue.new.items }
    ensures room { HasRoom (vec_capacity queue.new) table.new queue.new.items }
    ensures listed { IsListed table.new queue.new.items }
    ensures full { (level ≤ result.distance) ⊎ (length queue.new.items ≤ result.head) }
{
    let mut front = front;
    while front.head < queue.len() && front.distance < level {
        let end = queue.len();
        next_layer(table, queue, front.head, stride, front.distance);
        front = Front {
            head: end,
            distance: front.distance + 1,
        };
    }
    front
}

/// Fills a table layer by layer until a place is met, or all up to a distance are, or no layer is
/// left.
pub fn fill_within(
    table: &mut [u32],
    queue: &mut Vec<u32>,
    stride: usize,
    front: Front,
    place: usize,
    limit: u32,
) -> Front
    requires walled { IsWalled stride table.old }
    requires spreading { IsSpreading stride front.distance table.old [] (drop front.head queue.old.items) }
    requires head { front.head ≤ length queue.old.items }
    requires room { HasRoom (vec_capacity queue.old) table.old queue.old.items }
    requires listed { IsListed table.old queue.old.items }
    requires inside { place < length table.old }
    ensures ground { IsSameGround table.old table.new }
    ensures spreading { IsSpreading stride result.distance table.new [] (drop result.head queue.new.items) }
    ensures head { result.head ≤ length queue.new.items }
    ensures room { HasRoom (vec_capacity queue.new) table.new queue.new.items }
    ensures listed { IsListed table.new queue.new.items }
    ensures met { value table.new place ≡ unseen → IsLevelled stride table.new ⊎ (limit ≤ result.distance) }
{
    let mut front = front;
    while front.head < queue.len() && front.distance < limit && table[place] == UNSEEN {
        let end = queue.len();
        next_layer(table, queue, front.head, stride, front.distance);
        front = Front {
            head: end,
            distance: front.distance + 1,
        };
    }
    front
}

/// The least number of those of the places that have this mark; `BLOCKED` where none has.
fn least_marked(table: &[u32], places: &[u32], marks: &[u32], mark: u32) -> u32
    requires numbered { All (λ i. value table.now i < blocked) places.now }
    requires sizes { length marks.now ≡ length table.now }
    ensures { IsLeastAmong marks.now mark table.now places.now result }
{
    let mut least = BLOCKED;
    for place in places {
        let steps = table[*place as usize];
        if marks[*place as usize] == mark && steps < least {
            least = steps;
        }
    }
    least
}

/// How far a table is filled, and the least number at a marked place; `BLOCKED` where none has one.
#[derive(Clone, Copy, Debug, PartialEq, Eq)]
pub struct Reached {
    pub front: Front,
    pub least: u32,
}

/// Fills a table layer by layer until a place with this mark is met, or no layer is left. It looks
/// once at each place that is met.
pub fn fill_to_mark(
    table: &mut [u32],
    queue: &mut Vec<u32>,
    stride: usize,
    front: Front,
    marks: &[u32],
    mark: u32,
) -> Reached
    requires walled { IsWalled stride table.old }
    requires spreading { IsSpreading stride front.distance table.old [] (drop front.head queue.old.items) }
    requires head { front.head ≤ length queue.old.items }
    requires room { HasRoom (vec_capacity queue.old) table.old queue.old.items }
    requires listed { IsListed table.old queue.old.items }
    requires sizes { length marks.now ≡ length table.old }
    ensures ground { IsSameGround table.old table.new }
    ensures spreading { IsSpreading stride result.front.distance table.new [] (drop result.front.head queue.new.items) }
    ensures head { result.front.head ≤ length queue.new.items }
    ensures room { HasRoom (vec_capacity queue.new) table.new queue.new.items }
    ensures listed { IsListed table.new queue.new.items }
    ensures least { IsLeastMet marks.now mark table.new result.least }
    ensures unmet { result.least ≡ blocked → IsLevelled stride table.new }
{
    let mut front = front;
    let mut least = least_marked(table, queue, marks, mark);
    while front.head < queue.len() && least == BLOCKED {
        let end = queue.len();
        next_layer(table, queue, front.head, stride, front.distance);
        front = Front {
            head: end,
            distance: front.distance + 1,
        };
        least = least_marked(table, &queue[end..], marks, mark);
    }
    Reached { front, least }
}

/// Fills a table with the distances from the places at which it has 0, layer by layer.
pub fn fill(table: &mut [u32], queue: &mut Vec<u32>, stride: usize)
    requires ready { IsReady stride table.old queue.old.items }
    requires room { HasRoom (vec_capacity queue.old) table.old queue.old.items }
    ensures ground { IsSameGround table.old table.new }
    ensures levels { IsLevelled stride table.new }
{
    let mut head = 0;
    let mut distance = 0u32;
    while head < queue.len() {
        let end = queue.len();
        next_layer(table, queue, head, stride, distance);
        head = end;
        distance += 1;
    }
}

/// Puts places that have numbers back to not met.
pub fn forget(table: &mut [u32], places: &[u32])
    requires { All (λ i. value table.old i < blocked) places.now }
    ensures { IsForgotten table.old places.now table.new }
{
    for place in places {
        table[*place as usize] = UNSEEN;
    }
}
