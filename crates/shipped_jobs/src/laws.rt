// A law of the definitions.
ghost use Rattle.std.specs.Prelude.{◌≡◌, Some};
ghost use Rattle.samza_model.specs.declared.classes.Class.TheVariants.{WordCount as CountsWords};
ghost use Rattle.shipped_jobs.specs.Classes.{meaning_of};
ghost use Rattle.shipped_jobs.specs.WordCount.{word_count};

/// The class of the word count means what the word count does.
pub fn word_count_by_class()
    ensures { meaning_of CountsWords ≡ Some word_count }
{}
