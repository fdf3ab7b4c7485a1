//! What the definitions of this crate give, for a heap that makes a core of its run.

ghost use Rattle.heap_pictures.specs.Laws.{ToldCoresKeepTheRules, ToldCoresPicture};

/// A core that tells a run and the places of its free chunks keeps the rules of cores.
pub fn told_cores_keep_the_rules()
    ensures { ToldCoresKeepTheRules }
{}

/// And so it pictures the run.
pub fn told_cores_picture()
    ensures { ToldCoresPicture }
{}
