// The folder that was entered.
ghost use Rattle.std.specs.Prelude.{◌≡◌, string_bytes};
ghost use Rattle.file_host.specs.Places.{path_of_entered};

use crate::paths::folder_path;
use samza_model::Bin;
use std::alloc::Global;

/// The word that `enter` was given, and the path that the host's calls begin with, which is of just that word. Before
/// `enter` there is no word, and the path is that of where the process runs.
#[derive(Drop)]
pub(crate) struct Entered {
    word: Option<Bin>,
    path: String,
    ghost in_folder: { string_bytes path ≡ path_of_entered word },
}

impl Entered {
    ghost use Rattle.std.specs.Prelude.{None, Some, IfOk};
    ghost use Rattle.file_host.specs.Entered.{entered_word};

    /// Nothing was entered.
    pub(crate) fn nothing(alloc: Global) -> Entered
        ensures { entered_word result ≡ None }
    {
        Entered {
            word: None,
            path: String::new(alloc),
        }
    }

    /// The folder of this word.
    pub(crate) fn of(alloc: Global, word: &str) -> std::io::Result<Entered>
        ensures { IfOk result (λ e. entered_word e ≡ Some word.now) }
    {
        let path = folder_path(alloc, word)?;
        let word = Bin::from_vec(Vec::from_slice(alloc, word.as_bytes())?);
        Ok(Entered {
            word: Some(word),
            path,
        })
    }

    /// The path that the folder's files begin with.
    pub(crate) fn path(&self) -> &str
        ensures { result.now ≡ path_of_entered (entered_word self.now) }
    {
        self.path.as_str()
    }
}
