// What takes the names of a store one by one.

ghost use Rattle.std.specs.Prelude.{◌≡◌, [], ◌∷◌, ◌++◌, OnOk, IfErr};
ghost use Rattle.mj_store.specs.Questions.{Content};
ghost use Rattle.mj_tree.specs.Walks.{name};
ghost use Rattle.mj_tree.specs.declared.sink.SinkStop.TheVariants as stops;

use mj_subs::Subs;
use mj_text::Text;
use std::alloc::AllocError;

/// Why not all is taken.
#[derive(Clone, Copy, PartialEq, Eq, Debug)]
pub enum SinkStop {
    /// an allocation was refused
    Memory,
    /// what it goes to takes no more
    Closed,
}

impl From<AllocError> for SinkStop {
    ghost from_gives = { λ e r. r ≡ stops.Memory };

    fn from(_error: AllocError) -> SinkStop {
        SinkStop::Memory
    }
}

/// Takes names one by one, each with its text.
pub trait Sink {
    /// Taking these in order leads from one state to the other.
    ghost takes: { Self → Content → Self → Type 0 };

    /// Taking these in order, the last of which closes it, leads from one state to the other.
    ghost closes: { Self → Content → Self → Type 0 };

    /// A sink that takes nothing stays as it is.
    ghost nothing: { (s : Self) → takes s [] s };

    /// What is taken by turns is taken in order.
    ghost more: { (r s t : Self) (xs ys : Content) → takes r xs s → takes s ys t → takes r (xs ++ ys) t };

    /// A sink that takes some and is then closed by others is closed by all of them.
    ghost closed: { (r s t : Self) (xs ys : Content) → takes r xs s → closes s ys t → closes r (xs ++ ys) t };

    /// Takes one name more: of this kind, with this word and these subscripts.
    fn take(
        &mut self,
        global: bool,
        word: &[u8],
        subscripts: &Subs,
        text: &Text,
    ) -> Result<(), SinkStop>
        ensures taken { OnOk result (takes self.old ((name global word.now subscripts.now, text.now) ∷ []) self.new) }
        ensures closed { IfErr result (λ stop. stop ≡ stops.Closed → closes self.old ((name global word.now subscripts.now, text.now) ∷ []) self.new) };
}
