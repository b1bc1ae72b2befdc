// Lists of terms: the padded length of a profile, whether a list is valid, and where a node stands in it.
// Terms come as two slices of equal length, nodes and values: document 01 has slices of structs in thin functions around such code.
ghost use Rattle.std.specs.Prelude.{◌≡◌, ◌≤◌, length};
ghost use Rattle.histogram.specs.Tree.{padded};
ghost use Rattle.histogram.specs.Terms.{paired, valid_from};
ghost use Rattle.histogram.specs.Inner.{Found, Ascending};

// The smallest power of two that is `slots` or more.
// Doubled by hand: `next_power_of_two` makes the library for the panel's core need a helper that it may not (firmware/symbols).
pub fn padded_length(slots: usize) -> usize
    requires { slots ≤ 512 }
    ensures { result ≡ padded slots }
{
    let mut length = 1;
    while length < slots {
        length *= 2;
    }
    length
}

// Whether the nodes ascend strictly in 1 to end-1 and the values lie within ±20,000.
pub fn is_valid(end: usize, nodes: &[u16], values: &[i16]) -> bool
    requires { length nodes.now ≡ length values.now }
    ensures { result ≡ valid_from 0 end (paired nodes.now values.now) }
{
    let mut last = 0;
    for (i, &node) in nodes.iter().enumerate() {
        let node = usize::from(node);
        if node <= last || end <= node {
            return false;
        }
        if limits::is_beyond(limits::VALUE_LIMIT, i32::from(values[i])) {
            return false;
        }
        last = node;
    }
    true
}

// The place of a node among ascending nodes, by halving. By hand: firmware/audit refuses `binary_search` and `partition_point`, which take pointers to numbers.
pub fn find(nodes: &[u16], node: u16) -> Option<usize>
    requires { Ascending nodes.now }
    ensures { Found nodes.now node result }
{
    let mut low = 0;
    let mut high = nodes.len();
    while low < high {
        let middle = low + (high - low) / 2;
        if nodes[middle] < node {
            low = middle + 1;
        } else {
            high = middle;
        }
    }
    if low < nodes.len() && nodes[low] == node {
        Some(low)
    } else {
        None
    }
}
