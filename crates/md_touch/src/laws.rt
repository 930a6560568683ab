// How pending differences go on.
ghost use Rattle.md_touch.specs.Laws.{FollowsCommits, SurvivesVacuums, StartsEmpty};

/// A pending difference is the difference from the base to the newest version at every moment: it is empty at first, each
/// commit's touch leads it on, and a vacuum leaves it. What changes no place and no table, as drawing, closing and superseding
/// tickets, pinning and unpinning, leaves it too.
pub fn touches_follow()
    ensures start { StartsEmpty }
    ensures commit { FollowsCommits }
    ensures vacuum { SurvivesVacuums }
{}
