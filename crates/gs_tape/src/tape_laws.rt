// Laws about what a reader of capture files answers.

ghost use Rattle.gs_tape.specs.TapeLaws.{AnswersAreAFront, AnswersEnd, AnswersFail};

/// Laws: the ticks that repeated calls answer are the ticks of the file, in order, and then comes its end
/// or its first fault.
pub fn answers_are_the_file()
    ensures front { AnswersAreAFront }
    ensures end { AnswersEnd }
    ensures fault { AnswersFail }
{}
