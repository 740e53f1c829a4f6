//! Files by their names.

ghost use Rattle.std.specs.Prelude.{◌≡◌, ◌∷◌, [], ℕ, List, Option, None};
ghost use Rattle.std.specs.Option.{option_map};
ghost use Rattle.squall_cli_ask.specs.Files.{KnownFile, Unknown, Opens, AddsNames};

use squall_cli_device::Source;

/// Finds files by their names.
pub trait Files {
    /// An opened file, whose bytes are read from its start on.
    type File: Source + Drop;

    /// What is known of the file of a name. By default nothing is.
    ghost known: { Self → List ℕ → KnownFile } = { λ _ _. Unknown };

    /// The names of the files that were opened, in their order, if they are known. By default they are
    /// not.
    ghost opened: { Self → Option (List (List ℕ)) } = { λ _. None };

    /// Opens the file of that name. The answer is None if it can't be opened.
    fn open(&mut self, name: &str) -> Option<Self::File>
        ensures opens { Opens (known self.old name.now) (option_map (λ file. (Self.File.state file).remaining) result) }
        ensures files { known self.new ≡ known self.old }
        ensures once { AddsNames (opened self.old) (opened self.new) (name.now ∷ []) };
}
