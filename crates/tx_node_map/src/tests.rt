use crate::NodeMap;
use std::test::Fail;
use tx_expect::expect;
use tx_tree::NodeId;

trait Counter: Drop {
    fn count(&self) -> u32;

    fn add(&mut self, more: u32);
}

#[derive(Drop)]
struct Plain(u32);

impl Counter for Plain {
    fn count(&self) -> u32 {
        self.0
    }

    fn add(&mut self, more: u32) {
        self.0 = self.0.saturating_add(more);
    }
}

#[derive(Drop)]
struct Doubled(u32);

impl Counter for Doubled {
    fn count(&self) -> u32 {
        self.0.saturating_mul(2)
    }

    fn add(&mut self, more: u32) {
        self.0 = self.0.saturating_add(more);
    }
}

fn count_at(map: &NodeMap<Box<dyn Counter>>, node: NodeId) -> Option<u32> {
    match map.get(node) {
        Some(counter) => Some(counter.count()),
        None => None,
    }
}

#[test]
fn boxed_objects_are_kept_by_node(rt: HostRuntime) -> Result<(), Fail> {
    let alloc = rt.alloc();
    let mut map: NodeMap<Box<dyn Counter>> = NodeMap::new(alloc);
    let plain: Box<dyn Counter> = Box::new(alloc, Plain(3))?;
    let doubled: Box<dyn Counter> = Box::new(alloc, Doubled(4))?;
    let other: Box<dyn Counter> = Box::new(alloc, Plain(9))?;
    expect(map.insert(NodeId(2), plain).is_ok(), "a first object")?;
    expect(map.insert(NodeId(5), doubled).is_ok(), "a second one")?;
    if let Some(counter) = map.get_mut(NodeId(5)) {
        counter.add(1);
    }
    expect(count_at(&map, NodeId(2)) == Some(3), "the first one")?;
    expect(count_at(&map, NodeId(5)) == Some(10), "the second one")?;
    expect(count_at(&map, NodeId(3)).is_none(), "none between")?;
    expect(
        map.insert(NodeId(2), other).is_ok(),
        "in the place of the first",
    )?;
    expect(count_at(&map, NodeId(2)) == Some(9), "the other one")?;
    expect(map.remove(NodeId(2)).is_some(), "it is taken away")?;
    expect(map.remove(NodeId(2)).is_none(), "it is gone")?;
    expect(map.get_mut(NodeId(2)).is_none(), "nothing is to be changed")?;
    expect(
        count_at(&map, NodeId(5)) == Some(10),
        "the second one stays",
    )
}

#[test]
fn a_place_is_taken_beforehand(rt: HostRuntime) -> Result<(), Fail> {
    let mut map: NodeMap<(u32, u32)> = NodeMap::new(rt.alloc());
    map.reserve(NodeId(40))?;
    expect(map.get(NodeId(40)).is_none(), "a place holds nothing")?;
    let Ok(()) = map.insert(NodeId(40), (1, 2)) else {
        unreachable!()
    };
    let Ok(()) = map.insert(NodeId(7), (3, 4)) else {
        unreachable!()
    };
    expect(
        map.get(NodeId(40)).copied() == Some((1, 2)),
        "what was put there",
    )?;
    expect(
        map.remove(NodeId(7)) == Some((3, 4)),
        "what was put before it",
    )?;
    let Ok(()) = map.insert(NodeId(7), (5, 6)) else {
        unreachable!()
    };
    expect(
        map.get(NodeId(7)).copied() == Some((5, 6)),
        "what was put there again",
    )
}
