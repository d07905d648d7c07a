//! The name and the value of an option, as they are written.

ghost use Rattle.std.specs.Prelude.{◌≡◌, ◌≤◌, if◌then◌else◌, Some, None as Nothing, IfSome, find};
ghost use Rattle.std.specs.List.{list_all};
ghost use Rattle.std.specs.Str.Parse.{digits_value};
ghost use Rattle.pct_model.specs.declared.run_options.RunOption.TheVariants as option;
ghost use Rattle.pct_model.specs.Names.{is_digit};
ghost use Rattle.pct_model.specs.RunOptions.{all_options, greatest_value, is_named, is_value};
ghost use Rattle.pct_options.specs.OptionTexts.{number_of, value_of};

use pct_model::RunOption;

/// The options of `run`.
const OPTIONS: [RunOption; 6] = [
    RunOption::Budget,
    RunOption::Passes,
    RunOption::Slots,
    RunOption::Seed,
    RunOption::Workers,
    RunOption::Turns,
];

/// The most digits of a value.
const MAX_DIGITS: usize = 20;

/// The option with a name.
pub(crate) fn option_named(name: &str) -> Option<RunOption>
    ensures { result ≡ find (is_named name.now) all_options }
{
    for option in OPTIONS {
        if name.as_bytes() == option.name() {
            return Some(option);
        }
    }
    None
}

/// The value of an option that a text gives: the number of its digits, if the option can have it.
#[tactic(auto, unfolding(crate::specs::OptionTexts::value_of))]
pub(crate) fn value_of(option: RunOption, text: &str) -> Option<u64>
    ensures value { result ≡ value_of option text.now }
    ensures within { IfSome result (λ value. value ≤ greatest_value option) }
{
    let value = number_of(text)?;
    if option.least() <= value && value <= option.greatest() {
        Some(value)
    } else {
        None
    }
}

/// The seed that a text writes: the number of its 1 to 20 digits, if it has at most 64 bits. Leading zeros are allowed.
#[tactic(auto, using(crate::proofs::OptionTexts::value_as_read))]
pub fn read_seed(text: &str) -> Option<u64>
    ensures { result ≡ (if is_value option.Seed text.now then Some (digits_value 10 text.now) else Nothing) }
{
    value_of(RunOption::Seed, text)
}

// The number that 1 to 20 digits write, if it has at most 64 bits. Leading zeros are allowed.
#[tactic(auto, unfolding(crate::specs::OptionTexts::number_of), using(crate::proofs::OptionTexts::number_parsed))]
fn number_of(text: &str) -> Option<u64>
    ensures { result ≡ number_of text.now }
{
    if text.len() <= MAX_DIGITS && are_digits(text.as_bytes()) {
        text.parse().ok()
    } else {
        None
    }
}

// Whether all bytes are digits.
fn are_digits(bytes: &[u8]) -> bool
    ensures { result ≡ list_all is_digit bytes.now }
{
    bytes.iter().all(|byte| byte.is_ascii_digit())
}
