//! The folder of a plan as a program sees it: what a call changes in it, and what a run leaves that ends at any moment.

ghost use Rattle.std.specs.Prelude.{◌≡◌, ◌⊎◌, true, false, is_some, None, Some, OnOk, IfOk};
ghost use Rattle.planning_words.specs.Folder.{Held, Goes, ChangesFresh, ChangesWhole, ChangesMarker, Places, IsSame};

use std::io;

/// The folder of a plan. Each of its files has a number, a name of its own and another name, under which it stands before it is put in place. A
/// marker says that all files of a plan are whole and are to be put in place.
///
/// A run may end in a call or after one, at any moment. A folder of the system doesn't tell what it holds: of that one the clauses say nothing.
pub trait Folder {
    /// What the folder may hold.
    ghost holds: { Self → Held → Type 0 };

    /// What a run that ended at some moment up to now may have left in it.
    ghost passed: { Self → Held → Type 0 };

    /// Writes a file under its other name and makes sure of it.
    fn write(&mut self, file: usize, bytes: &[u8]) -> io::Result<()>
        ensures goes { Goes (holds self.old) (holds self.new) (passed self.old) (passed self.new) (ChangesFresh file) }
        ensures written { OnOk result ((held : Held) → holds self.new held → held.fresh file ≡ Some bytes.now) };

    /// Removes a file under its other name, where it stands.
    fn clear(&mut self, file: usize) -> io::Result<()>
        ensures goes { Goes (holds self.old) (holds self.new) (passed self.old) (passed self.new) (ChangesFresh file) }
        ensures cleared { OnOk result ((held : Held) → holds self.new held → held.fresh file ≡ None) };

    /// Whether a file stands under its other name.
    fn has_new(&mut self, file: usize) -> io::Result<bool>
        ensures goes { Goes (holds self.old) (holds self.new) (passed self.old) (passed self.new) IsSame }
        ensures found { IfOk result (λ found. (held : Held) → holds self.new held → is_some (held.fresh file) ≡ found) };

    /// Gives what stands under a file's own name a further name, where somebody edited it, so that it isn't lost.
    fn keep(&mut self, file: usize) -> io::Result<()>
        ensures goes { Goes (holds self.old) (holds self.new) (passed self.old) (passed self.new) (ChangesWhole file) };

    /// Gives a file its own name in place of its other one.
    fn place(&mut self, file: usize) -> io::Result<()>
        ensures goes { Goes (holds self.old) (holds self.new) (passed self.old) (passed self.new) (λ before after. IsSame before after ⊎ Places file before after) }
        ensures placed { OnOk result ((held : Held) → holds self.new held → held.fresh file ≡ None) };

    /// Whether the marker stands.
    fn is_marked(&mut self) -> io::Result<bool>
        ensures goes { Goes (holds self.old) (holds self.new) (passed self.old) (passed self.new) IsSame }
        ensures marker { IfOk result (λ marked. (held : Held) → holds self.new held → held.is_marked ≡ marked) };

    /// Makes the marker.
    fn mark(&mut self) -> io::Result<()>
        ensures goes { Goes (holds self.old) (holds self.new) (passed self.old) (passed self.new) ChangesMarker }
        ensures marked { OnOk result ((held : Held) → holds self.new held → held.is_marked ≡ true) };

    /// Takes the marker away.
    fn unmark(&mut self) -> io::Result<()>
        ensures goes { Goes (holds self.old) (holds self.new) (passed self.old) (passed self.new) ChangesMarker }
        ensures unmarked { OnOk result ((held : Held) → holds self.new held → held.is_marked ≡ false) };
}
