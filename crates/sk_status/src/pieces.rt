//! Words behind semicolons.
ghost use Rattle.std.specs.Prelude.{◌≡◌, ◌≤◌, ◌+◌, [], ◌++◌, ◌∷◌, length, decimal};
ghost use Rattle.sk_status.specs.Notes.{behind};

use sk_decimal::Line;

/// Appends a word.
pub fn push_word(line: &mut Line, word: &str)
    requires { length line.old + length word.now ≤ 127 }
    ensures words { line.new ≡ line.old ++ behind (word.now ∷ []) }
    ensures length { length line.new ≡ length line.old + length word.now + 1 }
{
    line.push(b";");
    line.push(word.as_bytes());
}

/// Appends a number.
pub fn push_number(line: &mut Line, number: u32)
    requires { length line.old ≤ 87 }
    ensures words { line.new ≡ line.old ++ behind (decimal number ∷ []) }
    ensures length { length line.new ≤ length line.old + 41 }
{
    line.push(b";");
    line.push_number(u128::from(number));
}

/// Appends two words.
pub fn push_two(line: &mut Line, a: &str, b: &str)
    requires { length line.old + length a.now + length b.now ≤ 126 }
    ensures words { line.new ≡ line.old ++ behind (a.now ∷ b.now ∷ []) }
    ensures length { length line.new ≡ length line.old + length a.now + length b.now + 2 }
{
    push_word(line, a);
    push_word(line, b);
}

/// Appends three words.
pub fn push_three(line: &mut Line, a: &str, b: &str, c: &str)
    requires { length line.old + length a.now + length b.now + length c.now ≤ 125 }
    ensures words { line.new ≡ line.old ++ behind (a.now ∷ b.now ∷ c.now ∷ []) }
    ensures length { length line.new ≡ length line.old + length a.now + length b.now + length c.now + 3 }
{
    push_two(line, a, b);
    push_word(line, c);
}

/// Appends a word and a number.
pub fn push_numbered(line: &mut Line, word: &str, number: u32)
    requires { length line.old + length word.now ≤ 86 }
    ensures words { line.new ≡ line.old ++ behind (word.now ∷ decimal number ∷ []) }
    ensures length { length line.new ≤ length line.old + length word.now + 42 }
{
    push_word(line, word);
    push_number(line, number);
}

/// Appends two words and a number.
pub fn push_word_numbered(line: &mut Line, a: &str, b: &str, number: u32)
    requires { length line.old + length a.now + length b.now ≤ 85 }
    ensures words { line.new ≡ line.old ++ behind (a.now ∷ b.now ∷ decimal number ∷ []) }
    ensures length { length line.new ≤ length line.old + length a.now + length b.now + 43 }
{
    push_word(line, a);
    push_numbered(line, b, number);
}

/// Appends a word, a number and a word.
pub fn push_numbered_word(line: &mut Line, a: &str, number: u32, b: &str)
    requires { length line.old + length a.now + length b.now ≤ 85 }
    ensures words { line.new ≡ line.old ++ behind (a.now ∷ decimal number ∷ b.now ∷ []) }
    ensures length { length line.new ≤ length line.old + length a.now + length b.now + 43 }
{
    push_numbered(line, a, number);
    push_word(line, b);
}
