// A plant of eight devices and a rule of about 100 parts, with no past in it.
pub(crate) fn without_past() -> &'static [u8] {
    b"atoms boiler pump valve drain fan lamp horn door;
rel near : 2 {(boiler pump) (pump valve) (valve drain) (drain boiler) (fan lamp) (lamp horn) (horn door) (door fan)}
    {(boiler pump) (pump valve) (valve drain) (drain boiler) (fan lamp) (lamp horn) (horn door) (door fan) (boiler fan)};
var on : 1 {} {(boiler) (pump) (valve) (drain) (fan) (lamp) (horn) (door)};
var hot : 1 {} {(boiler) (pump) (valve) (drain) (fan) (lamp) (horn) (door)};
horizon 8;
formula ( ( always all x : univ | ( x in on implies eventually some [ [ x . near ] & hot ] )
    and all x : univ | all y : [ x . ^ near ] |
        ( ( y in hot and not y in on ) implies after ( x in on until [ y . near ] in [ hot + on ] ) ) )
  and ( always ( some on implies some x : on | ( x in hot' or some [ [ near . x ] - on' ] ) )
    and ( not eventually [ on -> hot ] in [ near & ~ near ]
      or ( always ( [ on + hot ] = [ univ - none ] implies after on' = hot )
        and all x : hot | some y : univ | ( [ x -> y ] in [ near + iden ]
          and ( y in on until ( x in hot or no [ [ y . near ] & on ] ) ) ) ) ) ) )
"
}

// The same with a past that is four operators deep.
pub(crate) fn with_past() -> &'static [u8] {
    b"atoms boiler pump valve drain fan lamp horn door;
rel near : 2 {(boiler pump) (pump valve) (valve drain) (drain boiler) (fan lamp) (lamp horn) (horn door) (door fan)}
    {(boiler pump) (pump valve) (valve drain) (drain boiler) (fan lamp) (lamp horn) (horn door) (door fan) (boiler fan)};
var on : 1 {} {(boiler) (pump) (valve) (drain) (fan) (lamp) (horn) (door)};
var hot : 1 {} {(boiler) (pump) (valve) (drain) (fan) (lamp) (horn) (door)};
horizon 8;
formula ( ( always all x : univ | ( x in on implies once some [ [ x . near ] & hot ] )
    and all x : univ | all y : [ x . ^ near ] |
        ( ( y in hot and not y in on ) implies once ( x in on since [ y . near ] in [ hot + on ] ) ) )
  and ( always ( some on implies some x : on | ( x in hot' or once historically some [ [ near . x ] - on' ] ) )
    and ( not eventually [ on -> hot ] in [ near & ~ near ]
      or ( always historically ( [ on + hot ] = [ univ - none ] implies before on' = hot )
        and always all x : hot | some y : univ | ( [ x -> y ] in [ near + iden ]
          and once ( y in on since ( before once x in hot or no [ [ y . near ] & on ] ) ) ) ) ) ) )
"
}
