// The hierarchies that are measured.
use hierarchy::hierarchy::Hierarchy;

fn put_above(hierarchy: Hierarchy, senior: u16, junior: u16) -> Hierarchy {
    hierarchy.with_edge(senior, junior).unwrap_or(hierarchy)
}

// Role 0 above role 1 above role 2, and so on to role 63.
pub fn chain() -> Hierarchy {
    (0..63u16).fold(Hierarchy::new(), |chain, role| {
        put_above(chain, role, role + 1)
    })
}

// Layers of two roles below role 0, each role above both of the next layer.
pub fn diamonds() -> Hierarchy {
    let top = put_above(put_above(Hierarchy::new(), 0, 1), 0, 2);
    (0..30u16).fold(top, |stack, layer| {
        let left = 2 * layer + 1;
        let half = put_above(put_above(stack, left, left + 2), left, left + 3);
        put_above(put_above(half, left + 1, left + 2), left + 1, left + 3)
    })
}
