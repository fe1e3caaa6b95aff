// One column of a map: pairs of an id and a value, in the order of their ids.
ghost use Rattle.std.specs.Prelude.{◌≡◌, ◌==◌, ◌<◌, ◌≤◌, ◌+◌, ℕ, Some, None, if◌then◌else◌, length, IfOk, IfErr, vec_capacity};
ghost use Rattle.kv_store.specs.Columns.{found, IsRising, IsAt, IsGapFor};

/// Where the id is, or where it would go.
fn place_of(column: &[(u32, u64)], id: u32) -> Result<usize, usize>
    requires { IsRising column.now }
    ensures found { IfOk result (IsAt column.now id) }
    ensures absent { IfErr result (IsGapFor column.now id) }
{
    column.binary_search_by_key(&id, |&(k, _)| k)
}

/// The value of the id.
pub fn find(column: &[(u32, u64)], id: u32) -> Option<u64>
    requires { IsRising column.now }
    ensures { result ≡ found column.now id }
{
    match place_of(column, id) {
        Ok(at) => Some(column[at].1),
        Err(_) => None,
    }
}

/// Sets the value of the id, and answers how many pairs were added. There is room for a new one.
pub fn set(column: &mut Vec<(u32, u64)>, id: u32, value: u64) -> usize
    requires rising { IsRising column.old.items }
    requires room { found column.old.items id ≡ None → length column.old.items < vec_capacity column.old }
    ensures rising { IsRising column.new.items }
    ensures sets { (q : ℕ) → found column.new.items q ≡ (if q == id then Some value else found column.old.items q) }
    ensures added { length column.new.items ≡ length column.old.items + result }
    ensures new { 0 < result → found column.old.items id ≡ None }
    ensures most { result ≤ 1 }
    ensures capacity { vec_capacity column.old ≤ vec_capacity column.new }
{
    match place_of(column, id) {
        Ok(at) => {
            column[at] = (id, value);
            0
        }
        Err(at) => {
            put(column, at, id, value);
            1
        }
    }
}

fn put(column: &mut Vec<(u32, u64)>, at: usize, id: u32, value: u64)
    requires rising { IsRising column.old.items }
    requires gap { IsGapFor column.old.items id at }
    requires room { length column.old.items < vec_capacity column.old }
    ensures rising { IsRising column.new.items }
    ensures sets { (q : ℕ) → found column.new.items q ≡ (if q == id then Some value else found column.old.items q) }
    ensures more { length column.new.items ≡ length column.old.items + 1 }
    ensures capacity { vec_capacity column.old ≤ vec_capacity column.new }
{
    let Ok(()) = column.insert(at, (id, value)) else {
        unreachable!()
    };
}

/// Takes the id out, if it is there, and answers how many pairs went.
pub fn take_out(column: &mut Vec<(u32, u64)>, id: u32) -> usize
    requires rising { IsRising column.old.items }
    ensures rising { IsRising column.new.items }
    ensures takes { (q : ℕ) → found column.new.items q ≡ (if q == id then None else found column.old.items q) }
    ensures gone { length column.new.items + result ≡ length column.old.items }
    ensures capacity { vec_capacity column.new ≡ vec_capacity column.old }
{
    match place_of(column, id) {
        Ok(at) => {
            column.remove(at);
            1
        }
        Err(_) => 0,
    }
}
