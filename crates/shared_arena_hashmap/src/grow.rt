// Entering a record, and growth.
ghost use Rattle.std.specs.Prelude.{◌≡◌, true, ◌+◌, ◌*◌, ◌%◌, ◌≤◌, ◌<◌, length};
ghost use Rattle.shared_arena_hashmap.specs.Power.{power_of_two};
ghost use Rattle.shared_arena_hashmap.specs.Buckets.{with_bucket, cleared};
ghost use Rattle.shared_arena_hashmap.specs.Grow.{free_of, entered, reentered, all_reentered, grown};

// Writes bucket b.
fn set_bucket(table: &mut [u32], b: usize, address: u32, hash: u32)
    requires { 2 * b + 1 < length table.old }
    ensures { table.new ≡ with_bucket b address hash table.old }
{
    let w = 2 * b;
    table[w] = address;
    table[w + 1] = hash;
}

// Writes n empty buckets from bucket b on.
pub fn clear(table: &mut [u32], b: usize, n: usize)
    requires { 2 * (b + n) ≤ length table.old }
    ensures { table.new ≡ cleared b n table.old }
{
    for at in b..b + n {
        set_bucket(table, at, limits::NULL, 0);
    }
}

// The first empty bucket of a hash's probe; l where there is none.
fn free(table: &[u32], first: usize, l: usize, hash: u32) -> usize
    requires { (0 < l) × (2 * (first + l) ≤ length table.now) }
    ensures { (result ≡ free_of table.now first l hash) × (result ≤ l) }
{
    let mut i = ((hash as usize) + 1) % l;
    for _before in 0..l {
        let address = table[2 * (first + i)];
        if address == limits::NULL {
            return i;
        }
        i = crate::next_bucket(l, i);
    }
    l
}

// Enters a record in the first empty bucket of its probe.
pub fn enter(table: &mut [u32], first: usize, l: usize, address: u32, hash: u32)
    requires { (0 < l) × (2 * (first + l) ≤ length table.old) }
    ensures { table.new ≡ entered first l address hash table.old }
{
    let i = free(table, first, l, hash);
    if i == l {
        return;
    }
    set_bucket(table, first + i, address, hash);
}

// Enters a record in the empty bucket that a lookup of its hash met, the k-th that it looked at. Nothing is probed.
pub fn enter_met(table: &mut [u32], first: usize, l: usize, address: u32, hash: u32, k: usize)
    requires l_value { (power_of_two l ≡ true) × (2 * (first + l) ≤ length table.old) }
    requires k_le_l { (k ≤ l) × (free_of table.old first l hash ≡ (hash + k) % l) }
    ensures { table.new ≡ entered first l address hash table.old }
{
    let i = ((hash as usize) + k) & (l - 1);
    set_bucket(table, first + i, address, hash);
}

fn reenter(table: &mut [u32], b: usize, first: usize, l: usize)
    requires { (0 < l) × ((2 * (first + l) ≤ length table.old) × (2 * b + 1 < length table.old)) }
    ensures { table.new ≡ reentered b first l table.old }
{
    let w = 2 * b;
    let address = table[w];
    if address == limits::NULL {
        return;
    }
    let hash = table[w + 1];
    enter(table, first, l, address, hash);
}

fn reenter_all(table: &mut [u32], n: usize, b: usize, first: usize, l: usize)
    requires { (0 < l) × ((2 * (first + l) ≤ length table.old) × (2 * (b + n) ≤ length table.old)) }
    ensures { table.new ≡ all_reentered n b first l table.old }
{
    for at in b..b + n {
        reenter(table, at, first, l);
    }
}

// Grows the table of n buckets from `old` on to one of l buckets from `first` on.
pub fn resize(table: &mut [u32], n: usize, old: usize, first: usize, l: usize)
    requires { (0 < l) × ((2 * (first + l) ≤ length table.old) × (2 * (old + n) ≤ length table.old)) }
    ensures { table.new ≡ grown n old first l table.old }
{
    clear(table, first, l);
    reenter_all(table, n, old, first, l);
}
