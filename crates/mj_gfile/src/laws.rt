// Laws of every file: each function has nothing to do, and its contract is the law.

ghost use Rattle.mj_gfile.specs.Refused.{HasOneReason};
ghost use Rattle.mj_gfile.specs.Spelled.{IsReadBack, HasOneSpelling};

/// Bytes are refused as a listing for one reason at one line.
pub fn one_reason()
    ensures { HasOneReason }
{}

/// A listing of globals is read as these.
pub fn reads_back()
    ensures { IsReadBack }
{}

/// There is one listing of each version at most for some globals.
pub fn one_spelling()
    ensures { HasOneSpelling }
{}
