// Laws of damage.
ghost use Rattle.std.specs.Prelude.{ℕ, ◌≡◌, ◌≤◌, ◌^◌, length};
ghost use Rattle.gate_log.specs.Records.{IsDamaged};

/// Damaged bytes are damaged at one place.
pub fn damage_has_one_place(bytes: &[u8])
    requires { length bytes.now ≤ 2 ^ 60 }
    ensures { (a b : ℕ) → IsDamaged bytes.now a → IsDamaged bytes.now b → a ≡ b }
{
    let _ = bytes;
}
