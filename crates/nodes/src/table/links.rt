ghost use Rattle.std.specs.Prelude.{◌≡◌, ◌+◌, ◌<◌, ◌≤◌, min, max, if◌then◌else◌, ◌==◌, length};
ghost use Rattle.model.specs.Nodes.{is_held};
ghost use Rattle.partial.specs.Meaning.{the_partial};
ghost use Rattle.nodes.specs.Linked.{node_bucket, sought};
ghost use Rattle.nodes.specs.Meaning.{the_nodes};

use crate::hash::bucket;
use crate::table::Table;
use partial::partial::PartialSchedule;

impl Table {
    // The bucket of node i.
    fn node_bucket(&self, i: usize) -> usize
        requires { i < length (the_nodes self.now) }
        ensures is { result ≡ node_bucket (the_nodes self.now) (length self.now.heads.items) i }
        ensures within { result < length self.now.heads.items }
    {
        bucket(&self.nodes[i].partial, self.heads.len())
    }

    // Links the first node that is not linked: it heads its chain.
    fn link(&mut self)
        requires { self.old.linked < length (the_nodes self.old) }
        ensures nodes { self.new.nodes ≡ self.old.nodes }
        ensures linked { self.new.linked ≡ self.old.linked + 1 }
    {
        let i = self.linked;
        let b = self.node_bucket(i);
        self.next[i] = self.heads[b];
        self.heads[b] = Some(i);
        self.linked = i + 1;
    }

    // Takes the last linked node out of its chain, which it heads.
    fn unlink(&mut self)
        requires { 1 < self.old.linked }
        ensures nodes { self.new.nodes ≡ self.old.nodes }
        ensures linked { self.new.linked + 1 ≡ self.old.linked }
    {
        let i = self.linked - 1;
        let b = self.node_bucket(i);
        self.heads[b] = self.next[i];
        self.linked = i;
    }

    // Links those of the first `used` nodes that are not linked.
    pub(super) fn link_below(&mut self, used: usize)
        ensures nodes { self.new.nodes ≡ self.old.nodes }
        ensures linked { self.new.linked
            ≡ max self.old.linked (min used (length (the_nodes self.old))) }
    {
        let end = used.min(self.len());
        while self.linked < end {
            self.link();
        }
    }

    // Unlinks the nodes from node i on; node 0 is in no chain, and nothing is done for it.
    pub(super) fn unlink_from(&mut self, i: usize)
        ensures nodes { self.new.nodes ≡ self.old.nodes }
        ensures linked { self.new.linked
            ≡ if i == 0 then self.old.linked else min self.old.linked i }
    {
        while i > 0 && self.linked > i {
            self.unlink();
        }
    }

    // Whether node i, found in a chain, is one of the first `used` and holds a duplicate of q.
    fn is_sought(&self, i: usize, used: usize, q: &PartialSchedule) -> bool
        requires above { 0 < i }
        requires within { i < length (the_nodes self.now) }
        ensures { result ≡ sought (the_nodes self.now) used (the_partial q.now) i }
    {
        i < used && q.is_duplicate(&self.nodes[i].partial)
    }

    // Whether one of the first `used` nodes, node 0 apart, holds a duplicate of q: it would be in q's chain.
    pub(super) fn is_held(&self, used: usize, q: &PartialSchedule) -> bool
        requires { min used (length (the_nodes self.now)) ≤ self.now.linked }
        ensures { result ≡ is_held (the_nodes self.now) used (the_partial q.now) }
    {
        let mut at = self.heads[bucket(q, self.heads.len())];
        while let Some(i) = at {
            if self.is_sought(i, used, q) {
                return true;
            }
            at = self.next[i];
        }
        false
    }
}
