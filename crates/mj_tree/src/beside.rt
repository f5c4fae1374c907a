// What stands beside a subscript among children.

ghost use Rattle.std.specs.Prelude.{◌≡◌, option_copied, MatchOption};
ghost use Rattle.std.specs.Option.{option_map};
ghost use Rattle.std.specs.Map.{keys_of};
ghost use Rattle.mj_subs.specs.Collation.{subscript_cmp};
ghost use Rattle.mj_store.specs.declared.store.Direction.TheVariants as way;
ghost use Rattle.mj_store.specs.Nodes.{is_empty, next_past};
ghost use Rattle.mj_tree.specs.Nest.{IsAside, IsNoneAside};
ghost use Rattle.mj_tree.specs.Rows.{IsOrdered, all_of, live};

use crate::children::Children;
use crate::node::Node;
use mj_subs::Sub;

/// The first child after a subscript, where none of a path stays.
pub fn aside<'a>(children: &'a Children, sub: &Sub) -> Option<(usize, &'a Sub, &'a Node)>
    requires { IsOrdered children.now.row.items children.now.others.entries }
    ensures { MatchOption result (IsNoneAside sub.now (all_of children.now)) (λ t. IsAside sub.now (all_of children.now) t.0 t.1.now t.2.now) }
{
    match children.after(sub) {
        None => None,
        Some((next, child)) => Some((0, next, child)),
    }
}

/// The first child's subscript after this one. After the empty one comes each.
pub fn key_after<'a>(children: &'a Children, last: &Sub) -> Option<&'a Sub>
    requires { IsOrdered children.now.row.items children.now.others.entries }
    ensures { option_copied result ≡ next_past subscript_cmp way.Forward (is_empty last.now) last.now (keys_of (live (all_of children.now))) }
{
    if last.is_empty() {
        return subscript(children.first());
    }
    subscript(children.after(last))
}

/// The last child's subscript before this one. Before the empty one comes each.
pub fn key_before<'a>(children: &'a Children, last: &Sub) -> Option<&'a Sub>
    requires { IsOrdered children.now.row.items children.now.others.entries }
    ensures { option_copied result ≡ next_past subscript_cmp way.Backward (is_empty last.now) last.now (keys_of (live (all_of children.now))) }
{
    if last.is_empty() {
        return subscript(children.last());
    }
    subscript(children.before(last))
}

// The subscript of a child.
fn subscript<'a>(child: Option<(&'a Sub, &'a Node)>) -> Option<&'a Sub>
    ensures { option_copied result ≡ option_map (λ e. e.0.now) child.entry }
{
    match child {
        None => None,
        Some((sub, _)) => Some(sub),
    }
}
