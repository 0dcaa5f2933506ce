// The configuration of an executor. Of its fields `execute_outcome` reads the fuel and the depth limit alone; the others are carried.
ghost use Rattle.std.specs.Prelude.{◌≡◌};
ghost use Rattle.exec.specs.Config.{default_config, with_policy};

use runtime::CoreAdmissionProfile;

#[derive(Clone, Copy, Debug, PartialEq, Eq)]
pub enum CoreEnginePolicy {
    DeterministicReference,
    Auto,
}

#[derive(Clone, Copy, Debug, PartialEq, Eq)]
pub struct CoreConfig {
    pub fuel: u64,
    pub max_call_depth: u16,
    pub engine_policy: CoreEnginePolicy,
    pub validate_before_execute: bool,
    pub profile: CoreAdmissionProfile,
}

impl Default for CoreConfig {
    ghost is_default = { λ config. config ≡ default_config };

    fn default() -> Self {
        let profile = CoreAdmissionProfile::safe();
        Self {
            fuel: profile.max_fuel,
            max_call_depth: profile.max_call_depth,
            engine_policy: CoreEnginePolicy::Auto,
            validate_before_execute: true,
            profile,
        }
    }
}

impl CoreConfig {
    pub fn engine_policy(self) -> CoreEnginePolicy
        ensures { result ≡ self.engine_policy }
    {
        self.engine_policy
    }

    pub fn with_engine_policy(self, policy: CoreEnginePolicy) -> Self
        ensures { result ≡ with_policy self policy }
    {
        Self {
            engine_policy: policy,
            ..self
        }
    }
}
