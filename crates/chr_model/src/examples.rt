//! Worked runs.
ghost use Rattle.std.specs.Prelude.{[], ◌∷◌, ℕ};
ghost use Rattle.chr_log.specs.declared.events.Version.{Version};
ghost use Rattle.chr_log.specs.declared.events.Version.TheVariants.{One, Two};
ghost use Rattle.chr_model.specs.Examples.{EndsIn, EndsQuietIn, IsUnlawful, of, gcd, gcd_rules, gcd_log, gcd_log_early_drop, pair_rules, pair_log, pair_log_one_label, min_rules, min_log, token, token_rules, token_log, token_log_two, token_log_strict};

/// Worked logs are lawful and end with these stores. Three other logs are not lawful: a goal is dropped that still has an
/// instance, one label is for two heads, and a drop of version two is judged by version one.
pub fn worked_examples()
    ensures gcd { EndsQuietIn One gcd_rules gcd_log ((3, gcd 3) ∷ []) }
    ensures pair { EndsQuietIn One pair_rules pair_log ((3, of 1 1) ∷ []) }
    ensures min { EndsQuietIn One min_rules min_log ((4, of 0 1) ∷ []) }
    ensures token { EndsIn One token_rules token_log ((2, token) ∷ []) }
    ensures token_two { EndsQuietIn Two token_rules token_log_two ((2, token) ∷ (3, of 2 1) ∷ []) }
    ensures token_strict { EndsQuietIn One token_rules token_log_strict ((2, token) ∷ (3, of 2 1) ∷ []) }
    ensures early_drop { IsUnlawful One gcd_rules gcd_log_early_drop }
    ensures one_label { (v : Version) → IsUnlawful v pair_rules pair_log_one_label }
    ensures two_is_not_one { IsUnlawful One token_rules token_log_two }
{}
