// Where a new node may stand.
ghost use Rattle.std.specs.Prelude.{◌≡◌, false, None, ◌≢◌};
ghost use Rattle.document.specs.Table.{is_attribute};
ghost use Rattle.store.specs.Views.{view};
ghost use Rattle.flat.specs.Document.{document};
ghost use Rattle.flat.specs.Spots.{ParentAt, SuitedAt, Spotted};

use super::FlatStore;
use crate::rows::Spot;
use crate::walks::behind_attributes;
use records::{Kind, Node};

impl FlatStore {
    fn root_spot(&self, node: Node, left: u32) -> Option<Spot>
        requires { node.parent ≡ 0 }
        ensures { Spotted self.now node left result }
    {
        if self.used == 0 && node.kind == Kind::Element && left == 0 {
            Some(Spot {
                parent: 0,
                place: 0,
            })
        } else {
            None
        }
    }

    // Behind the child `left` of the row `parent`.
    fn spot_behind(&self, parent: usize, node: Node, left: u32) -> Option<Spot>
        requires element { ParentAt self.now parent node }
        requires child { (is_attribute node.kind ≡ false) × (left ≢ 0) }
        ensures { Spotted self.now node left result }
    {
        let row = self.row_with(left).ok()?;
        let here = self.rows[row];
        if here.node.parent == node.parent && here.node.kind != Kind::Attribute {
            Some(Spot {
                parent,
                place: row + here.size,
            })
        } else {
            None
        }
    }

    // Right behind the attributes of the row `parent`; an attribute where its identifier belongs.
    fn first_spot(&self, parent: usize, node: Node) -> Spot
        requires element { ParentAt self.now parent node }
        requires fresh { view (document self.now) node.id ≡ None }
        ensures { SuitedAt self.now node 0 result }
    {
        let bound = (node.kind == Kind::Attribute).then_some(node.id);
        Spot {
            parent,
            place: behind_attributes(self.in_use(), parent, bound),
        }
    }

    // Where a node may stand behind `left`, or first where that is 0; `None` where it may not.
    pub(super) fn spot(&self, node: Node, left: u32) -> Option<Spot>
        requires { view (document self.now) node.id ≡ None }
        ensures { Spotted self.now node left result }
    {
        if node.parent == 0 {
            return self.root_spot(node, left);
        }
        let parent = self.row_with(node.parent).ok()?;
        if self.rows[parent].node.kind != Kind::Element {
            return None;
        }
        if left == 0 {
            return Some(self.first_spot(parent, node));
        }
        if node.kind == Kind::Attribute {
            return None;
        }
        self.spot_behind(parent, node, left)
    }
}
