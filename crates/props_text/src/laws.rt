// A law of the definitions.
ghost use Rattle.props_text.specs.Written.{WrittenComesBack};

/// What is written is read as it was.
pub fn written_comes_back()
    ensures { WrittenComesBack }
{}
