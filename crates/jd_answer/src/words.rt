ghost use Rattle.std.specs.Prelude.{◌≡◌, IfSome, MatchOption, None, Some};
ghost use Rattle.std.specs.List.{list_all};
ghost use Rattle.jd_answer.specs.Words.{asks_goals, command_words, is_file_name, word_texts};

/// The files of `replay PROOF FILE+` or `goals PROOF FILE+`.
#[derive(Clone, Copy)]
pub struct ReplayFiles<'a> {
    /// The path of the proof file.
    pub proof: &'a str,
    /// The paths of the Java files, of which there is one at least.
    pub files: &'a [String],
    /// Whether the goals that a proof leaves are asked for, as by `goals`.
    pub goals: bool,
}

// Whether a word is not empty and does not begin with `-`.
fn names_file(word: &str) -> bool
    ensures { result ≡ is_file_name word.now }
{
    match word.as_bytes() {
        [] => false,
        [first, ..] => *first != b'-',
    }
}

// Whether each word is such a one.
fn name_files(words: &[String]) -> bool
    ensures { result ≡ list_all is_file_name (word_texts words.now) }
{
    let mut all = true;
    for word in words {
        all = names_file(word.as_str()) && all;
    }
    all
}

/// The files that the words name, if they are `replay PROOF FILE+` or `goals PROOF FILE+`.
pub fn replay_files<'a>(words: &'a [String]) -> Option<ReplayFiles<'a>>
    ensures files { MatchOption result (command_words (word_texts words.now) ≡ None)
        (λ named. command_words (word_texts words.now) ≡ Some (named.proof.now, word_texts named.files.now)) }
    ensures goals { IfSome result (λ named. named.goals ≡ asks_goals (word_texts words.now)) }
{
    let [command, proof, files @ ..] = words else {
        return None;
    };
    let proof = proof.as_str();
    if files.is_empty() {
        return None;
    }
    let goals = command.as_str() == "goals";
    if (command.as_str() == "replay" || goals) && names_file(proof) && name_files(files) {
        Some(ReplayFiles {
            proof,
            files,
            goals,
        })
    } else {
        None
    }
}
